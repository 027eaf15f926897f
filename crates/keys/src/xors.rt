// Exclusive or of keys, and a key's colour.
ghost use Rattle.std.specs.Prelude.{◌≡◌};
ghost use Rattle.scheme.specs.Bytes.{xor_bytes, colour_of};

use crate::wires::Key;
use std::array;

// Byte by byte. It stands below `xor`, as what needs a proof by hand is in private functions.
fn sum_of(a: Key, b: Key) -> Key
    ensures { result ≡ xor_bytes a b }
{
    array::from_fn(|i| a[i] ^ b[i])
}

// The exclusive or of two keys.
pub fn xor(a: Key, b: Key) -> Key
    ensures { result ≡ xor_bytes a b }
{
    sum_of(a, b)
}

// The colour of a key (point-and-permute bit), its last bit.
pub fn colour(key: Key) -> bool
    ensures { result ≡ colour_of key }
{
    key[15] % 2 == 1
}
