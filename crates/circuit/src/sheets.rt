// A sheet, which keeps its own law.
ghost use Rattle.std.specs.Prelude.{◌+◌, ◌≤◌, length};
ghost use Rattle.circuit.specs.Circuit.{Below, GoodGates, most_inputs, most_gates, most_outputs};

use crate::gates::Gate;

// A boolean circuit. Its wires are numbered from 0: the inputs come first, and each gate makes the next wire.
#[derive(Drop)]
pub struct Sheet {
    pub inputs: u16,
    // how many inputs are the opener's (the evaluator's): the first; the others are the maker's (the garbler's)
    pub opener: u16,
    pub gates: Vec<Gate>,
    pub outputs: Vec<u32>,
    ghost few_inputs: { inputs ≤ most_inputs },
    ghost opener_within: { opener ≤ inputs },
    ghost few_gates: { length gates.items ≤ most_gates },
    ghost few_outputs: { length outputs.items ≤ most_outputs },
    ghost gates_good: { GoodGates inputs gates.items },
    ghost outputs_made: { Below (inputs + length gates.items) outputs.items },
}
