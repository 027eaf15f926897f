// A sheet from its bytes: each part is read to its end or its first fault.
ghost use Rattle.std.specs.Prelude.{◌≡◌, ◌-◌, ◌≤◌};
ghost use Rattle.circuit.specs.Format.{kind, field, count, wire, gate, head, many, parse};
ghost use Rattle.circuit.specs.Kept.{lent, lent_rest, ReadsAs, Skipped, Kept};
ghost use Rattle.circuit.specs.Meaning.{circuit_of};
ghost use Rattle.circuit.specs.Numbers.{bits};
ghost use Rattle.circuit.specs.Refusals.{Answers};
ghost use Rattle.circuit.specs.Promises.{Reads};

use crate::bytes::number;
use crate::gates::Gate;
use crate::refusals::{Failure, Refusal};
use crate::sheets::Sheet;
use std::alloc::{AllocError, Global};
use std::array;

// The kind that a sheet's text begins with. A number and no enum, as this crate knows one kind.
pub(crate) const SHEET: u8 = 1;

const MOST_INPUTS: u32 = 1024;

const MOST_GATES: u32 = 65536;

const MOST_OUTPUTS: u32 = 1024;

// The counts before the gates.
#[derive(Clone, Copy)]
struct Head {
    inputs: u32,
    opener: u32,
    gates: u32,
}

fn kind_in(text: &[u8]) -> Result<&[u8], Refusal>
    ensures { lent_rest result ≡ kind 1 text.now }
{
    let Some((&SHEET, rest)) = text.split_first() else {
        return Err(Refusal::Malformed);
    };
    Ok(rest)
}

// A number of N bytes, in a pair with what is left, as in the definitions, and so is each part. That N is at most 4 no type can say.
fn field<const N: usize>(text: &[u8]) -> Result<(u32, &[u8]), Refusal>
    requires { N ≤ 4 }
    ensures { lent result ≡ field N text.now }
{
    let Some((n, rest)) = number::<N>(text) else {
        return Err(Refusal::Malformed);
    };
    Ok((n, rest))
}

// A count of N bytes, at most `most`.
fn count_in<const N: usize>(most: u32, text: &[u8]) -> Result<(u32, &[u8]), Refusal>
    requires { N ≤ 4 }
    ensures { lent result ≡ count N most text.now }
{
    let (n, rest) = field::<N>(text)?;
    if n > most {
        return Err(Refusal::Count);
    }
    Ok((n, rest))
}

// A wire below `made`.
fn wire_in(made: u32, text: &[u8]) -> Result<(u32, &[u8]), Refusal>
    ensures { lent result ≡ wire made text.now }
{
    let (n, rest) = field::<4>(text)?;
    if n >= made {
        return Err(Refusal::NotMade);
    }
    Ok((n, rest))
}

// The four bits of a truth table.
fn table_of(gives: u32) -> [bool; 4]
    ensures { result ≡ bits 4 gives }
{
    array::from_fn(|i| gives >> (3 - i) & 1 == 1)
}

// A gate is read whole: of its faults the lowest number wins.
fn gate_in(made: u32, text: &[u8]) -> Result<(Gate, &[u8]), Refusal>
    ensures { lent result ≡ gate made text.now }
{
    let (left, rest) = field::<4>(text)?;
    let (right, rest) = field::<4>(rest)?;
    let (gives, rest) = field::<1>(rest)?;
    if left >= made || right >= made {
        return Err(Refusal::NotMade);
    }
    if gives > 15 {
        return Err(Refusal::Table);
    }
    let gate = Gate {
        wires: [left, right],
        gives: table_of(gives),
    };
    Ok((gate, rest))
}

fn head_in(text: &[u8]) -> Result<(Head, &[u8]), Refusal>
    ensures { lent result ≡ head text.now }
{
    let rest = kind_in(text)?;
    let (inputs, rest) = count_in::<2>(MOST_INPUTS, rest)?;
    let (opener, rest) = count_in::<2>(inputs, rest)?;
    let (gates, rest) = count_in::<4>(MOST_GATES, rest)?;
    Ok((
        Head {
            inputs,
            opener,
            gates,
        },
        rest,
    ))
}

// What follows the parts numbered from `first` to before `end`, which are read for their faults alone.
// A loop and no chain, as a part begins where the one before it ends.
fn skip_parts<T: Drop, F: Fn(u32, &[u8]) -> Result<(T, &[u8]), Refusal>>(
    first: u32,
    end: u32,
    read: F,
    text: &[u8],
) -> Result<&[u8], Refusal>
    requires { F.IsAlwaysCallable read }
    ensures { (one : _) → ReadsAs (F.post read) one → Skipped result (many one (end - first) first text.now) }
{
    let mut rest = text;
    for i in first..end {
        let (_, after) = read(i, rest)?;
        rest = after;
    }
    Ok(rest)
}

// The parts numbered from `first` to before `end`. Where memory runs out they are read on, since a fault further on is still a fault.
// A loop for the same reason.
fn many_in<T: Drop, F: Fn(u32, &[u8]) -> Result<(T, &[u8]), Refusal>>(
    heap: Global,
    first: u32,
    end: u32,
    read: F,
    text: &[u8],
) -> Result<(Result<Vec<T>, AllocError>, &[u8]), Refusal>
    requires { F.IsAlwaysCallable read }
    ensures { (one : _) → ReadsAs (F.post read) one → Kept result (many one (end - first) first text.now) }
{
    let mut items = Vec::new(heap);
    let mut rest = text;
    for i in first..end {
        let (item, after) = read(i, rest)?;
        if items.push(item).is_err() {
            return Ok((Err(AllocError), skip_parts(i + 1, end, read, after)?));
        }
        rest = after;
    }
    Ok((Ok(items), rest))
}

// A sheet, as far as memory holds. Never inlined: in the midst of a caller's code the loops over parts are slower.
#[inline(never)]
fn sheet_in(heap: Global, text: &[u8]) -> Result<Sheet, Failure>
    ensures { Answers circuit_of result (parse text.now) }
{
    let (head, rest) = head_in(text)?;
    let made = head.inputs + head.gates;
    let (gates, rest) = many_in(heap, head.inputs, made, gate_in, rest)?;
    let (count, rest) = count_in::<2>(MOST_OUTPUTS, rest)?;
    let (outputs, rest) = many_in(heap, 0, count, |_, text| wire_in(made, text), rest)?;
    if !rest.is_empty() {
        return Err(Failure::Refused(Refusal::Malformed));
    }
    // counts of two bytes, at most 1,024
    Ok(Sheet {
        inputs: head.inputs as u16,
        opener: head.opener as u16,
        gates: gates?,
        outputs: outputs?,
    })
}

impl Sheet {
    // A sheet from its bytes, all of them.
    #[tactic(auto, using(crate::proofs::Drafts::laws_of))]
    pub fn read(heap: Global, text: &[u8]) -> Result<Sheet, Failure>
        ensures { Reads text.now result }
    {
        sheet_in(heap, text)
    }
}
