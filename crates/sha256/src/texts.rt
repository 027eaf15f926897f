// The digest of a text.
ghost use Rattle.std.specs.Prelude.{◌≡◌, ◌+◌, ◌-◌, ◌*◌, ◌/◌, ◌%◌, ◌^◌, ◌<◌, ◌≤◌, [], ◌∷◌, ◌++◌, length, map, take, replicate};
ghost use Rattle.std.specs.List.{flat_map, range_with_len};
ghost use Rattle.circuit.specs.Numbers.{digits};
ghost use Rattle.sha256.specs.Hash.{word, words, compressed, sha256};
ghost use Rattle.sha256.specs.Turns.{value_from};

use crate::compression::{START, compress};
use std::array;

// The words of some bytes, four bytes each.
pub(crate) fn words_of<const N: usize>(bytes: &[u8]) -> [u32; N]
    requires { length bytes.now ≡ 4 * N }
    ensures { result ≡ map (word bytes.now) (range_with_len 0 N) }
{
    let (chunks, _) = bytes.as_chunks::<4>();
    array::from_fn(|i| u32::from_be_bytes(chunks[i]))
}

// What is left of a text after its full blocks, with the bit behind it.
#[tactic(auto, using(crate::proofs::Bytes::marked_is))]
fn marked(rest: &[u8]) -> [u8; 64]
    requires { length rest.now < 64 }
    ensures { result ≡ rest.now ++ (128 ∷ replicate (63 - length rest.now) 0) }
{
    let mut block = [0; 64];
    block[..rest.len()].copy_from_slice(rest);
    block[rest.len()] = 128;
    block
}

// A block that ends with the count of a text's bits.
#[tactic(auto, using(crate::proofs::Bytes::sized))]
fn sized(block: [u32; 16], bits: u64) -> [u32; 16]
    ensures { result ≡ take 14 block ++ ((bits / 2 ^ 32) ∷ (bits % 2 ^ 32) ∷ []) }
{
    let mut last = block;
    // By shift and remainder, which is no longer than by bytes and back.
    last[14] = (bits >> 32) as u32;
    last[15] = (bits % 0x1_0000_0000) as u32;
    last
}

// The hash value after the last block or two.
fn ended(state: [u32; 8], rest: &[u8], size: usize) -> [u32; 8]
    requires short { length rest.now < 64 }
    requires part { length rest.now ≡ size % 64 }
    ensures { result ≡ value_from size state rest.now }
{
    let bits = (size as u64).wrapping_mul(8);
    let block = words_of(&marked(rest));
    if rest.len() < 56 {
        compress(state, sized(block, bits))
    } else {
        let next = compress(state, block);
        compress(next, sized([0; 16], bits))
    }
}

// The hash value after one more block.
fn absorbed(state: [u32; 8], block: &[u8; 64]) -> [u32; 8]
    ensures { result ≡ compressed state (words block.now) }
{
    compress(state, words_of(block))
}

// The hash value of a text, block by block.
fn hash_value(text: &[u8]) -> [u32; 8]
    ensures { sha256 text.now ≡ flat_map (digits 256 4) result }
{
    let (blocks, rest) = text.as_chunks::<64>();
    let state = blocks.iter().fold(START, absorbed);
    ended(state, rest, text.len())
}

// The first bytes of a hash value.
pub(crate) fn bytes_of<const N: usize>(h: [u32; 8]) -> [u8; N]
    requires { N ≤ 32 }
    ensures first { result ≡ take N (flat_map (digits 256 4) h) }
    ensures all { N ≡ 32 → result ≡ flat_map (digits 256 4) h }
{
    array::from_fn(|i| h[i / 4].to_be_bytes()[i % 4])
}

// The digest of a text.
pub fn digest(text: &[u8]) -> [u8; 32]
    ensures { result ≡ sha256 text.now }
{
    bytes_of(hash_value(text))
}
