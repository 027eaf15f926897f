// Numbers in a text, high byte first.
ghost use Rattle.std.specs.Prelude.{◌≡◌, ◌≤◌};
ghost use Rattle.circuit.specs.Kept.{lent_front};
ghost use Rattle.circuit.specs.Numbers.{front};

// The number that the first N bytes of a text write, and what is left of the text.
pub(crate) fn number<const N: usize>(text: &[u8]) -> Option<(u32, &[u8])>
    requires { N ≤ 4 }
    ensures { lent_front result ≡ front N text.now }
{
    let (bytes, rest) = text.split_first_chunk::<N>()?;
    let mut word = [0; 4];
    word[4 - N..].copy_from_slice(bytes);
    Some((u32::from_be_bytes(word), rest))
}
