// What a sheet means in the plain.
ghost use Rattle.std.specs.Prelude.{◌≡◌, ◌<◌, [], ◌∷◌, length, All, IfOk, vec_len, OnOk, slice_index};
ghost use Rattle.circuit.specs.Circuit.{wire_count, GoodGates, at, at_all, extended};
ghost use Rattle.circuit.specs.Meaning.{circuit_of};
ghost use Rattle.circuit.specs.Numbers.{binary};
ghost use Rattle.circuit.specs.Promises.{Evaluates, Runs};

use crate::gates::Gate;
use crate::refusals::{Failure, Refusal};
use crate::sheets::Sheet;
use std::alloc::{AllocError, Global};

// The entry of a truth table for two bits, by a match on both (docs/DECISIONS.md, "Forms").
fn case_of(left: bool, right: bool) -> usize
    ensures { result ≡ binary (left ∷ right ∷ []) }
{
    match (left, right) {
        (false, false) => 0,
        (false, true) => 1,
        (true, false) => 2,
        (true, true) => 3,
    }
}

// What a gate gives where the wires made so far have these values. Its wires are lent as a slice (docs/DECISIONS.md, "Forms").
fn gate_value(wires: &[u32], gives: [bool; 4], known: &[bool]) -> bool
    requires two { length wires.now ≡ 2 }
    requires left { slice_index wires.now 0 < length known.now }
    requires right { slice_index wires.now 1 < length known.now }
    ensures { result ≡ at gives (binary (at_all known.now wires.now)) }
{
    let left = known[wires[0] as usize];
    let right = known[wires[1] as usize];
    gives[case_of(left, right)]
}

// One value more for each gate. A loop and no chain, as a gate reads the values pushed before it.
fn run_gates(known: &mut Vec<bool>, gates: &[Gate]) -> Result<(), AllocError>
    requires { GoodGates (vec_len known.old) gates.now }
    ensures { OnOk result (known.new.items ≡ extended gates.now known.old.items) }
{
    for g in gates {
        let value = gate_value(&g.wires, g.gives, known);
        known.push(value)?;
    }
    Ok(())
}

// The values of some wires.
fn values_at(heap: Global, known: &[bool], wires: &[u32]) -> Result<Vec<bool>, AllocError>
    requires { All (λ w. w < length known.now) wires.now }
    ensures { IfOk result (λ v. v.items ≡ at_all known.now wires.now) }
{
    wires.iter().map(|w| known[*w as usize]).collect(heap)
}

fn all_values(heap: Global, sheet: &Sheet, inputs: &[bool]) -> Result<Vec<bool>, Failure>
    requires { length inputs.now ≡ sheet.now.inputs }
    ensures { Evaluates sheet.now inputs.now result }
{
    let mut known = inputs.to_vec(heap)?;
    run_gates(&mut known, &sheet.gates)?;
    Ok(known)
}

impl Sheet {
    pub fn wire_count(&self) -> usize
        ensures { result ≡ wire_count (circuit_of self.now) }
    {
        usize::from(self.inputs) + self.gates.len()
    }

    // The values of all wires, for as many values as inputs.
    pub fn values(&self, heap: Global, inputs: &[bool]) -> Result<Vec<bool>, Failure>
        ensures { Evaluates self.now inputs.now result }
    {
        if inputs.len() != usize::from(self.inputs) {
            return Err(Failure::Refused(Refusal::Values));
        }
        all_values(heap, self, inputs)
    }

    // The values of the outputs, for as many values as inputs.
    pub fn run(&self, heap: Global, inputs: &[bool]) -> Result<Vec<bool>, Failure>
        ensures { Runs self.now inputs.now result }
    {
        let known = self.values(heap, inputs)?;
        Ok(values_at(heap, &known, &self.outputs)?)
    }
}
