// The pairing of coins.
ghost use Rattle.std.specs.Prelude.{◌≡◌, ◌<◌, length, map, All, IfOk, IfErr, zip, position};
ghost use Rattle.circuit.specs.Circuit.{wire_count, at};
ghost use Rattle.circuit.specs.Meaning.{circuit_of};
ghost use Rattle.circuit.specs.Refusals.{refuse};
ghost use Rattle.scheme.specs.Coins.{◌⊕◌};
ghost use Rattle.scheme.specs.Outcome.{Pairs, pairing};
ghost use Rattle.scheme.specs.Statement.{Statement};

use circuit::{Failure, Refusal, Sheet};
use std::alloc::{AllocError, Global};

// How the coins of two inputs are paired. Not a `Result`: both are answers, and neither is a failure.
#[derive(Drop)]
pub enum Pairing {
    // the results are the same: for each wire, the coin that pairs the one given
    Coins(Vec<bool>),
    // the first output in which the results differ, from 0
    Differ(usize),
}

// The first output in which the results differ, from 0.
// Not one list of pairs: the values come as two, and are read at the outputs alone.
fn first_difference(before: &[bool], after: &[bool], outputs: &[u32]) -> Option<usize>
    requires before_within { All (λ w. w < length before.now) outputs.now }
    requires after_within { All (λ w. w < length after.now) outputs.now }
    ensures { result ≡ position (λ w. at before.now w ⊕ at after.now w) outputs.now }
{
    outputs
        .iter()
        .position(|w| before[*w as usize] != after[*w as usize])
}

// For each wire, the coin that gives its value `after` the colour that `before` has under its coin.
fn paired_coins(
    heap: Global,
    coins: &[bool],
    before: &[bool],
    after: &[bool],
) -> Result<Vec<bool>, AllocError>
    ensures { IfOk result (λ v. v.items ≡ map (λ w. (w.0).0 ⊕ (w.0).1 ⊕ w.1) (zip (zip coins.now before.now) after.now)) }
{
    coins
        .iter()
        .zip(before)
        .zip(after)
        .map(|((coin, before), after)| coin ^ before ^ after)
        .collect(heap)
}

// Two inputs of a sheet, and coins of its wires for the first.
#[derive(Drop)]
struct Fitting<'a> {
    sheet: &'a Sheet,
    first: &'a [bool],
    second: &'a [bool],
    coins: &'a [bool],
    ghost first_fits: { length first.now ≡ sheet.now.inputs },
    ghost second_fits: { length second.now ≡ sheet.now.inputs },
    ghost coins_fit: { length coins.now ≡ wire_count (circuit_of sheet.now) },
}

impl<'a> Fitting<'a> {
    // The inputs are looked at first, then the coins.
    fn of(
        sheet: &'a Sheet,
        first: &'a [bool],
        second: &'a [bool],
        coins: &'a [bool],
    ) -> Result<Fitting<'a>, Refusal>
        ensures given { IfOk result (λ f. (f.sheet.now ≡ sheet.now) × (f.first.now ≡ first.now) × (f.second.now ≡ second.now) × (f.coins.now ≡ coins.now)) }
        ensures refused { IfErr result (λ e. pairing (circuit_of sheet.now) first.now second.now coins.now ≡ refuse e) }
    {
        let inputs = usize::from(sheet.inputs);
        if first.len() != inputs || second.len() != inputs {
            return Err(Refusal::Values);
        }
        if coins.len() != sheet.wire_count() {
            return Err(Refusal::Malformed);
        }
        Ok(Fitting {
            sheet,
            first,
            second,
            coins,
        })
    }

    fn pair(&self, heap: Global) -> Result<Pairing, Failure>
        ensures { Pairs self.now.sheet.now self.now.first.now self.now.second.now self.now.coins.now result }
    {
        let before = self.sheet.values(heap, self.first)?;
        let after = self.sheet.values(heap, self.second)?;
        match first_difference(&before, &after, &self.sheet.outputs) {
            Some(output) => Ok(Pairing::Differ(output)),
            None => Ok(Pairing::Coins(paired_coins(heap, self.coins, &before, &after)?)),
        }
    }
}

// The coins under which every wire has, for the second input, the colour that it has for the first under these, so that an opener
// does not tell the two apart; or the first output in which the two results differ.
#[tactic(auto, using(crate::proofs::Stated::statement))]
pub fn pair(
    heap: Global,
    sheet: &Sheet,
    first: &[bool],
    second: &[bool],
    coins: &[bool],
) -> Result<Pairing, Failure>
    ensures pairs { Pairs sheet.now first.now second.now coins.now result }
    ensures laws { Statement }
{
    Fitting::of(sheet, first, second, coins)?.pair(heap)
}
