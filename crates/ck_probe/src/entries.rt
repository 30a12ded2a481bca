//! Entries: a name and a value packed into a block of eight words.
ghost use Rattle.std.specs.Prelude.{◌≡◌, ℕ, ◌^◌, ◌<◌, ◌↔◌, List, length, All, IsSome, IfSome, Some};
ghost use Rattle.ck_probe.specs.Entries.{IsEntry, IsPacked, entry_of};
ghost use Rattle.ck_probe.specs.Names.{IsName};
ghost use Rattle.ck_probe.specs.Words.{bytes_of};

use crate::names::Name;

/// The block of a name and a value: the name's length, the value, and the name's bytes in six
/// little-endian words, filled with zero bytes.
pub fn pack(name: &Name, value: u64) -> [u64; 8]
    ensures value { result ≡ entry_of name.now value }
    ensures is_name { IsName name.now }
    ensures is_entry { IsEntry result }
{
    [
        name.bytes().len() as u64,
        value,
        name.word(0),
        name.word(1),
        name.word(2),
        name.word(3),
        name.word(4),
        name.word(5),
    ]
}

/// The name and the value that the block packs. `None` comes exactly where it packs none.
pub fn unpack(block: &[u64; 8]) -> Option<(Name, u64)>
    ensures exactly { IsSome result ↔ IsPacked block.now }
    ensures layout { IsSome result ↔ IsEntry block.now }
    ensures packed { IfSome result (λ pair. IsName pair.0 × (block.now ≡ entry_of pair.0 pair.1)) }
    ensures undoes { (name : List ℕ) (value : ℕ) → IsName name → block.now ≡ entry_of name value → result ≡ Some (name, value) }
{
    let name = Name::from_padded(bytes_of_words(&block[2..]), block[0])?;
    Some((name, block[1]))
}

// The bytes of six words, in order.
fn bytes_of_words(words: &[u64]) -> [u8; 48]
    requires { length words.now ≡ 6 }
    ensures { result ≡ bytes_of words.now }
{
    let mut bytes = [0; 48];
    for k in 0..6 {
        bytes[8 * k..8 * k + 8].copy_from_slice(&words[k].to_le_bytes());
    }
    bytes
}

/// What packing keeps: an entry has eight words, each below 2^64 where the value is; it has the
/// layout of an entry; and no two names or values have the same one.
pub fn entry_law()
    ensures eight_words { (name : List ℕ) (value : ℕ) → length (entry_of name value) ≡ 8 }
    ensures fits { (name : List ℕ) (value : ℕ) → IsName name → value < 2 ^ 64 → All (λ word. word < 2 ^ 64) (entry_of name value) }
    ensures is_entry { (name : List ℕ) (value : ℕ) → IsName name → IsEntry (entry_of name value) }
    ensures injective { (name other : List ℕ) (value other_value : ℕ) → IsName name → IsName other → entry_of name value ≡ entry_of other other_value → (name ≡ other) × (value ≡ other_value) }
{}
