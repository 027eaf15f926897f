//! Bits as text: values, which are bytes 0 and 1, and lines of the characters 0 and 1.
#![tactic(auto)]

ghost use Rattle.std.specs.Prelude.{◌≡◌, ◌+◌, IfOk, vec_items, string_bytes};
ghost use Rattle.circuit.specs.Numbers.{bit as value_of};
ghost use Rattle.circuit.specs.Refusals.{Answers};
ghost use Rattle.bits.specs.Texts.{bit_of, bits_of, all_bits, bits_text, values_text, line_without_end, line_text, line_of, LineBack};

use circuit::{Failure, Refusal};
use std::alloc::{AllocError, Global};

// A way to write bits, a byte for each.
#[derive(Clone, Copy)]
struct Encoding {
    // the byte of a bit 0; that of a bit 1 is the next
    zero: u8,
    // of a text with another byte, or with other than as many bytes as bits are wanted
    refusal: Refusal,
}

const VALUES: Encoding = Encoding {
    zero: 0,
    refusal: Refusal::Values,
};

const LINE: Encoding = Encoding {
    zero: b'0',
    refusal: Refusal::Malformed,
};

impl Encoding {
    fn bit_of(self, byte: u8) -> Option<bool>
        ensures { result ≡ bit_of self.zero byte }
    {
        match byte.checked_sub(self.zero)? {
            0 => Some(false),
            1 => Some(true),
            _ => None,
        }
    }

    fn all_bits(self, text: &[u8]) -> bool
        ensures { result ≡ all_bits self.zero text.now }
    {
        text.iter().all(|b| self.bit_of(*b).is_some())
    }

    fn bits_of(self, heap: Global, text: &[u8]) -> Result<Vec<bool>, AllocError>
        ensures { IfOk result (λ v. v.items ≡ bits_of self.zero text.now) }
    {
        text.iter()
            .map(|b| self.bit_of(*b) == Some(true))
            .collect(heap)
    }

    // As many bits as are told. The whole text is looked at before memory is asked for, so that a
    // fault is told however little memory there is.
    fn read(self, heap: Global, count: usize, text: &[u8]) -> Result<Vec<bool>, Failure>
        ensures { Answers vec_items result (bits_text self.zero count self.refusal text.now) }
    {
        if text.len() != count || !self.all_bits(text) {
            return Err(Failure::Refused(self.refusal));
        }
        Ok(self.bits_of(heap, text)?)
    }
}

// As many values as are told, each a byte 0 or 1. Heap, count and text are no struct: callers have them from three places.
pub fn read_values(heap: Global, count: usize, text: &[u8]) -> Result<Vec<bool>, Failure>
    ensures { Answers vec_items result (values_text count text.now) }
{
    VALUES.read(heap, count, text)
}

// A text without its line's end, if it has one.
fn without_end(text: &[u8]) -> &[u8]
    ensures { result.now ≡ line_without_end text.now }
{
    text.strip_suffix(b"\n").unwrap_or(text)
}

// A line of as many characters 0 and 1 as are told.
pub fn read_line(heap: Global, count: usize, text: &[u8]) -> Result<Vec<bool>, Failure>
    ensures { Answers vec_items result (line_text count text.now) }
{
    LINE.read(heap, count, without_end(text))
}

// The library's `char::from_digit` may give none, and would have to be unwrapped.
fn digit_of(bit: bool) -> char
    ensures { result ≡ 48 + value_of bit }
{
    if bit { '1' } else { '0' }
}

// The line of some bits, without its end.
#[tactic(auto, using(crate::proofs::BitTexts::digits_encoded, crate::proofs::BitTexts::line_back, crate::proofs::BitTexts::line_back_with_end))]
pub fn line_of(heap: Global, bits: &[bool]) -> Result<String, AllocError>
    ensures digits { IfOk result (λ s. string_bytes s ≡ line_of bits.now) }
    ensures read_back { LineBack bits.now }
{
    bits.iter().map(|b| digit_of(*b)).collect(heap)
}
