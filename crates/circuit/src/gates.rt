// A gate.

// A gate takes two wires made before it, and makes the next one.
#[derive(Clone, Copy)]
pub struct Gate {
    pub wires: [u32; 2],
    // its truth table: what it gives for the cases 0 0, 0 1, 1 0, 1 1
    pub gives: [bool; 4],
}
