// A sheet's bytes.
ghost use Rattle.std.specs.Prelude.{◌≡◌, ℕ, List, ◌++◌, OnOk};
ghost use Rattle.std.specs.List.{flat_map};
ghost use Rattle.circuit.specs.Meaning.{circuit_of};
ghost use Rattle.circuit.specs.Format.{gate_bytes, encode};
ghost use Rattle.circuit.specs.Numbers.{digits, binary};
ghost use Rattle.circuit.specs.Promises.{Writes};

use crate::gates::Gate;
use crate::reading::SHEET;
use crate::sheets::Sheet;
use std::alloc::{AllocError, Global};

// What has bytes of its own in a text.
trait Encode {
    ghost bytes: { Self → List ℕ };

    fn put(&self, text: &mut Vec<u8>) -> Result<(), AllocError>
        ensures { OnOk result (text.new.items ≡ text.old.items ++ bytes self.now) };
}

// Numbers stand high byte first. Each size has its impl, as `to_be_bytes` is a method of each type and of no trait.
impl Encode for u16 {
    ghost bytes = { digits 256 2 };

    #[tactic(auto, using(crate::proofs::Numbers::two_bytes))]
    fn put(&self, text: &mut Vec<u8>) -> Result<(), AllocError> {
        text.extend_from_slice(&self.to_be_bytes())
    }
}

impl Encode for u32 {
    ghost bytes = { digits 256 4 };

    #[tactic(auto, using(crate::proofs::Numbers::four_bytes))]
    fn put(&self, text: &mut Vec<u8>) -> Result<(), AllocError> {
        text.extend_from_slice(&self.to_be_bytes())
    }
}

impl Encode for Gate {
    ghost bytes = { gate_bytes };

    fn put(&self, text: &mut Vec<u8>) -> Result<(), AllocError> {
        put_all(text, &self.wires)?;
        text.push(table_byte(self.gives))?;
        Ok(())
    }
}

// One after the other. A loop, as nothing is known of what a closure has borrowed once `try_for_each` is done.
fn put_all<T: Encode>(text: &mut Vec<u8>, items: &[T]) -> Result<(), AllocError>
    ensures { OnOk result (text.new.items ≡ text.old.items ++ flat_map T.bytes items.now) }
{
    for item in items {
        item.put(text)?;
    }
    Ok(())
}

// A truth table as a number, its first entry the highest bit. Not a fold: four bits with their weights are plainer.
fn table_byte(gives: [bool; 4]) -> u8
    ensures { result ≡ binary gives }
{
    let [a, b, c, d] = gives;
    8 * u8::from(a) + 4 * u8::from(b) + 2 * u8::from(c) + u8::from(d)
}

impl Encode for Sheet {
    ghost bytes = { λ s. encode (circuit_of s) };

    fn put(&self, text: &mut Vec<u8>) -> Result<(), AllocError> {
        text.push(SHEET)?;
        self.inputs.put(text)?;
        self.opener.put(text)?;
        (self.gates.len() as u32).put(text)?;
        put_all(text, &self.gates)?;
        (self.outputs.len() as u16).put(text)?;
        put_all(text, &self.outputs)
    }
}

impl Sheet {
    // The bytes that `read` reads as this sheet.
    #[tactic(auto, using(crate::proofs::Lawful::read_back_of))]
    pub fn write(&self, heap: Global) -> Result<Vec<u8>, AllocError>
        ensures { Writes self.now result }
    {
        let mut text = Vec::new(heap);
        self.put(&mut text)?;
        Ok(text)
    }
}
