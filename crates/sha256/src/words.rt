// The functions on words.
ghost use Rattle.std.specs.Prelude.{◌≡◌, ◌<◌, bit_xor};
ghost use Rattle.std.specs.Int.{rotate_right, w32};
ghost use Rattle.sha256.specs.Words.{choice as choice_of, majority as majority_of, shr};

#[tactic(auto, unfolding(crate::specs::Words::choice))]
pub(crate) fn choice(x: u32, y: u32, z: u32) -> u32
    ensures { result ≡ choice_of x y z }
{
    (x & y) ^ (!x & z)
}

#[tactic(auto, unfolding(crate::specs::Words::majority))]
pub(crate) fn majority(x: u32, y: u32, z: u32) -> u32
    ensures { result ≡ majority_of x y z }
{
    (x & y) ^ (x & z) ^ (y & z)
}

// Σ₀ and Σ₁, by their rotations.
pub(crate) fn big_sigma<const I: u32, const J: u32, const K: u32>(x: u32) -> u32
    ensures { result ≡ bit_xor (bit_xor (rotate_right w32 x I) (rotate_right w32 x J)) (rotate_right w32 x K) }
{
    x.rotate_right(I) ^ x.rotate_right(J) ^ x.rotate_right(K)
}

// σ₀ and σ₁, by their rotations and their shift.
pub(crate) fn small_sigma<const I: u32, const J: u32, const SHIFT: u32>(x: u32) -> u32
    requires { SHIFT < 32 }
    ensures { result ≡ bit_xor (bit_xor (rotate_right w32 x I) (rotate_right w32 x J)) (shr SHIFT x) }
{
    x.rotate_right(I) ^ x.rotate_right(J) ^ (x >> SHIFT)
}
