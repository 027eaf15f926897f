// The hash value after one block, from the one before it.
ghost use Rattle.std.specs.Prelude.{◌≡◌, take};
ghost use Rattle.sha256.specs.Words.{◌⊞◌, σ₀, σ₁};
ghost use Rattle.sha256.specs.Hash.{round as round_of, sums as sums_of, schedule, compressed};
ghost use Rattle.sha256.specs.Turns.{steps};

use crate::words::{big_sigma, choice, majority, small_sigma};
use std::array;

const CONSTANTS: [u32; 64] = [
    0x428a_2f98,
    0x7137_4491,
    0xb5c0_fbcf,
    0xe9b5_dba5,
    0x3956_c25b,
    0x59f1_11f1,
    0x923f_82a4,
    0xab1c_5ed5,
    0xd807_aa98,
    0x1283_5b01,
    0x2431_85be,
    0x550c_7dc3,
    0x72be_5d74,
    0x80de_b1fe,
    0x9bdc_06a7,
    0xc19b_f174,
    0xe49b_69c1,
    0xefbe_4786,
    0x0fc1_9dc6,
    0x240c_a1cc,
    0x2de9_2c6f,
    0x4a74_84aa,
    0x5cb0_a9dc,
    0x76f9_88da,
    0x983e_5152,
    0xa831_c66d,
    0xb003_27c8,
    0xbf59_7fc7,
    0xc6e0_0bf3,
    0xd5a7_9147,
    0x06ca_6351,
    0x1429_2967,
    0x27b7_0a85,
    0x2e1b_2138,
    0x4d2c_6dfc,
    0x5338_0d13,
    0x650a_7354,
    0x766a_0abb,
    0x81c2_c92e,
    0x9272_2c85,
    0xa2bf_e8a1,
    0xa81a_664b,
    0xc24b_8b70,
    0xc76c_51a3,
    0xd192_e819,
    0xd699_0624,
    0xf40e_3585,
    0x106a_a070,
    0x19a4_c116,
    0x1e37_6c08,
    0x2748_774c,
    0x34b0_bcb5,
    0x391c_0cb3,
    0x4ed8_aa4a,
    0x5b9c_ca4f,
    0x682e_6ff3,
    0x748f_82ee,
    0x78a5_636f,
    0x84c8_7814,
    0x8cc7_0208,
    0x90be_fffa,
    0xa450_6ceb,
    0xbef9_a3f7,
    0xc671_78f2,
];

// The hash value before the first block.
pub(crate) const START: [u32; 8] = [
    0x6a09_e667,
    0xbb67_ae85,
    0x3c6e_f372,
    0xa54f_f53a,
    0x510e_527f,
    0x9b05_688c,
    0x1f83_d9ab,
    0x5be0_cd19,
];

// A round, by its constant and its word of the schedule.
fn round(s: [u32; 8], by: (&u32, &u32)) -> [u32; 8]
    ensures { result ≡ round_of s by.entry.0.now by.entry.1.now }
{
    let [a, b, c, d, e, f, g, h] = s;
    let (constant, word) = by;
    let t1 = h
        .wrapping_add(big_sigma::<6, 11, 25>(e))
        .wrapping_add(choice(e, f, g))
        .wrapping_add(*constant)
        .wrapping_add(*word);
    let t2 = big_sigma::<2, 13, 22>(a).wrapping_add(majority(a, b, c));
    [t1.wrapping_add(t2), a, b, c, d.wrapping_add(t1), e, f, g]
}

// A word of the schedule, from those 2, 7, 15 and 16 places before it.
fn following(a: u32, b: u32, c: u32, d: u32) -> u32
    ensures { result ≡ σ₁ a ⊞ b ⊞ σ₀ c ⊞ d }
{
    small_sigma::<17, 19, 10>(a)
        .wrapping_add(b)
        .wrapping_add(small_sigma::<7, 18, 3>(c))
        .wrapping_add(d)
}

// Makes a block's schedule of its sixteen words, in place: an array handed out would be copied.
fn extend(w: &mut [u32; 64])
    ensures { w.new ≡ schedule (take 16 w.old) }
{
    // Not an iterator chain: a word is made of words that the loop has made.
    for t in 16..64 {
        w[t] = following(w[t - 2], w[t - 7], w[t - 15], w[t - 16]);
    }
}

// Eight rounds, by their constants and words.
fn eight_rounds(s: [u32; 8], by: (&[u32; 8], &[u32; 8])) -> [u32; 8]
    ensures { result ≡ steps s (by.entry.0.now, by.entry.1.now) }
{
    let (constants, words) = by;
    constants.iter().zip(words).fold(s, round)
}

fn sums(s: [u32; 8], t: [u32; 8]) -> [u32; 8]
    ensures { result ≡ sums_of s t }
{
    array::from_fn(|i| s[i].wrapping_add(t[i]))
}

pub(crate) fn compress(state: [u32; 8], block: [u32; 16]) -> [u32; 8]
    ensures { result ≡ compressed state block }
{
    let mut words = [0; 64];
    words[..16].copy_from_slice(&block);
    extend(&mut words);
    let (words, _) = words.as_chunks::<8>();
    let (constants, _) = CONSTANTS.as_chunks::<8>();
    // Eight at a time: a fold of single rounds takes a sixth longer.
    let last = constants.iter().zip(words).fold(state, eight_rounds);
    sums(last, state)
}
