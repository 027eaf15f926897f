// Pads of rows.
ghost use Rattle.std.specs.Prelude.{◌≡◌, [], ◌∷◌};
ghost use Rattle.std.specs.List.{flat_map};
ghost use Rattle.circuit.specs.Numbers.{digits};
ghost use Rattle.sha256.specs.Hash.{sha256, start, compressed};
ghost use Rattle.sha256.specs.Pads.{row_text, pad};

use crate::compression::{START, compress};
use crate::texts::{bytes_of, words_of};

// The one block that a row's text of 37 bytes fills once it is padded. Keys, gate and place are no struct: it would be made for one call.
fn row_block(left: [u8; 16], right: [u8; 16], gate: u32, place: u8) -> [u32; 16]
    ensures { sha256 (row_text (left ∷ right ∷ []) gate place) ≡ flat_map (digits 256 4) (compressed start result) }
{
    let [a, b, c, d] = words_of::<4>(&left);
    let [e, f, g, h] = words_of::<4>(&right);
    let last = u32::from_be_bytes([place, 0x80, 0, 0]);
    [a, b, c, d, e, f, g, h, gate, last, 0, 0, 0, 0, 0, 296]
}

// The pad of the row at `place` of a gate's table.
pub fn row_pad(left: [u8; 16], right: [u8; 16], gate: u32, place: u8) -> [u8; 16]
    ensures { result ≡ pad (row_text (left ∷ right ∷ []) gate place) }
{
    bytes_of(compress(START, row_block(left, right, gate, place)))
}
