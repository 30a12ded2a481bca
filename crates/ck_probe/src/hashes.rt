//! The mixing of numbers, and the hashes of keys and names.
ghost use Rattle.std.specs.Prelude.{◌≡◌, ℕ, List};
ghost use Rattle.ck_probe.specs.Canon.{canon_of};
ghost use Rattle.ck_probe.specs.Codes.{code_of};
ghost use Rattle.ck_probe.specs.Mixing.{key_code_of, mix_of};

use crate::names::{Name, Style, canon};

const FIRST_FACTOR: u64 = 0xff51_afd7_ed55_8ccd;

const SECOND_FACTOR: u64 = 0xc4ce_b9fe_1a85_ec53;

/// The 64-bit finalizer of MurmurHash3, of `key` xor `salt`.
#[inline]
#[tactic(auto, unfolding(crate::specs::Mixing::mix_of))]
pub fn mix(key: u64, salt: u64) -> u64
    ensures { result ≡ mix_of key salt }
{
    let mut x = key ^ salt;
    x ^= x >> 33;
    x = x.wrapping_mul(FIRST_FACTOR);
    x ^= x >> 33;
    x = x.wrapping_mul(SECOND_FACTOR);
    x ^ (x >> 33)
}

/// A table's hash of a key of 128 bits: `low` is the key modulo 2^64, and `high` the rest.
/// A key below 2^64 has the hash `mix(low, seed)`.
#[inline]
pub fn key_code(low: u64, high: u64, seed: u64) -> u64
    ensures { result ≡ key_code_of low high seed }
{
    let hash = mix(low, seed);
    if high == 0 { hash } else { mix(high, hash) }
}

/// The hash of a name: its canon name's length mixed with the seed, and then each eight bytes of it,
/// as a little-endian word, mixed with what came before. Names with one canon name have one hash.
pub fn code(name: &Name, style: Style) -> u64
    ensures value { result ≡ code_of style name.now }
    ensures by_canon { (other : List ℕ) → canon_of style other ≡ canon_of style name.now → code_of style other ≡ result }
{
    let spelled = canon(style, name);
    let len = spelled.bytes().len();
    let mut state = mix(len as u64, style.seed);
    for k in 0..len.div_ceil(8) {
        state = mix(spelled.word(k), state);
    }
    state
}
