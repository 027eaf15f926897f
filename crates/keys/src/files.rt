// Files of keys.
ghost use Rattle.std.specs.Prelude.{◌≡◌, ◌≤◌, length, IfOk};
ghost use Rattle.keys.specs.Files.{most_keys, keys_file, parse_keys};
ghost use Rattle.keys.specs.Heads.{Lent};
ghost use Rattle.keys.specs.Promises.{Writes, Reads};

use crate::wires::Key;
use circuit::{Failure, Refusal};
use std::alloc::{AllocError, Global};

// The kind that a file of keys begins with. A number and no enum, as this crate knows one kind.
const KEYS: u8 = 2;

const MOST_KEYS: usize = 2048;

// A file of keys that are not too many.
#[tactic(auto, using(circuit::proofs::Numbers::two_bytes))]
pub(crate) fn file_of(heap: Global, keys: &[Key]) -> Result<Vec<u8>, AllocError>
    requires { length keys.now ≤ most_keys }
    ensures { IfOk result (λ v. v.items ≡ keys_file keys.now) }
{
    let mut text = Vec::new(heap);
    text.push(KEYS)?;
    text.extend_from_slice(&(keys.len() as u16).to_be_bytes())?;
    text.extend_from_slice(keys.as_flattened())?;
    Ok(text)
}

// A file of keys, which `read_keys` reads as these.
#[tactic(auto, using(crate::proofs::Filed::all_back))]
pub fn write_keys(heap: Global, keys: &[Key]) -> Result<Vec<u8>, Failure>
    ensures { Writes keys.now result }
{
    if keys.len() > MOST_KEYS {
        return Err(Failure::Refused(Refusal::Count));
    }
    Ok(file_of(heap, keys)?)
}

// The keys of a file.
#[tactic(auto, using(crate::proofs::Filed::sixteens_chunks))]
pub(crate) fn keys_in(text: &[u8]) -> Result<&[Key], Refusal>
    ensures { Lent result (parse_keys text.now) }
{
    let Some((&[kind, high, low], rest)) = text.split_first_chunk::<3>() else {
        return Err(Refusal::Malformed);
    };
    let count = usize::from(u16::from_be_bytes([high, low]));
    let (keys, over) = rest.as_chunks();
    if kind != KEYS || keys.len() != count || !over.is_empty() {
        return Err(Refusal::Malformed);
    }
    if count > MOST_KEYS {
        return Err(Refusal::Count);
    }
    Ok(keys)
}

// As many keys as are told, from their file. Heap, count and text are no struct: callers have them from three places.
#[tactic(auto, using(crate::proofs::Filed::laws_of))]
pub fn read_keys(heap: Global, count: usize, text: &[u8]) -> Result<Vec<Key>, Failure>
    ensures { Reads count text.now result }
{
    let keys = keys_in(text)?;
    if keys.len() != count {
        return Err(Failure::Refused(Refusal::Values));
    }
    Ok(Vec::from_slice(heap, keys)?)
}
