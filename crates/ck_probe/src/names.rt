//! Names, and the spelling under which they are compared.
ghost use Rattle.std.specs.Prelude.{◌≡◌, ℕ, ◌*◌, ◌<◌, ◌↔◌, take, drop, map, IsSome, IfSome, Some, nat_eq, refl};
ghost use Rattle.std.specs.Cmp.{partial_equiv_from_equiv};
ghost use Rattle.std.specs.Cmp.Lexicographic.{pointwise, slice_cmp, nat_list_eq_equiv, nat_list_cmp_total, texts_ties, texts_po};
ghost use Rattle.std.specs.Ordering.{nat_cmp};
ghost use Rattle.std.specs.Char.{to_ascii_lowercase};
ghost use Rattle.ck_probe.specs.Canon.{canon_of};
ghost use Rattle.ck_probe.specs.Names.{HoldsName, IsName};
ghost use Rattle.ck_probe.specs.Words.{word_of};

use std::cmp::Ordering;
use std::fmt;
use std::marker::Model;

// The most bytes that a name has.
const MAX_LEN: usize = 48;

/// How names are compared and hashed.
#[derive(Clone, Copy, Debug, PartialEq, Eq)]
pub struct Style {
    /// Whether `A` to `Z` stand for `a` to `z`.
    pub fold: bool,
    /// What the hash of a name begins with.
    pub seed: u64,
}

/// A name: 1 to 48 bytes, each from 0x21 to 0x7E. Contracts see it as the list of its bytes.
#[derive(Clone, Copy)]
pub struct Name {
    bytes: [u8; MAX_LEN],
    len: usize,
}

impl Model for Name {
    ghost use Rattle.std.specs.Prelude.{◌≡◌, ℕ, List, length, take};
    ghost use Rattle.ck_probe.specs.Names.{HoldsName, padded};

    ghost Value = { List ℕ };

    ghost view = { λ a. take a.len a.bytes };

    ghost invariant = { λ a. HoldsName a.bytes a.len };

    ghost inverse = { λ name. record { bytes = padded name; len = length name } };
}

impl Name {
    /// The name with these bytes, if they are a name's.
    pub fn new(bytes: &[u8]) -> Option<Name>
        ensures exactly { IsSome result ↔ IsName bytes.now }
        ensures value { IfSome result (λ name. name ≡ bytes.now) }
    {
        if bytes.is_empty()
            || bytes.len() > MAX_LEN
            || !bytes.iter().all(|b| b.is_ascii_graphic())
        {
            return None;
        }
        let mut padded = [0; MAX_LEN];
        padded[..bytes.len()].copy_from_slice(bytes);
        Some(Name {
            bytes: padded,
            len: bytes.len(),
        })
    }

    /// The bytes of the name, in the spelling in which it was made.
    pub fn bytes(&self) -> &[u8]
        ensures value { result.now ≡ self.now }
        ensures is_name { IsName self.now }
    {
        &self.bytes[..self.len]
    }

    // Bytes `8 * k` to `8 * k + 7` as a little-endian word, where those past the end are zero.
    pub(crate) fn word(&self, k: usize) -> u64
        requires { k < 6 }
        ensures { result ≡ word_of (drop (8 * k) self.now) }
    {
        let mut piece = [0; 8];
        piece.copy_from_slice(&self.bytes[8 * k..8 * k + 8]);
        u64::from_le_bytes(piece)
    }

    // The name that the first `len` bytes are, if zero bytes follow it.
    pub(crate) fn from_padded(bytes: [u8; MAX_LEN], len: u64) -> Option<Name>
        ensures exactly { IsSome result ↔ HoldsName bytes len }
        ensures value { IfSome result (λ name. name ≡ take len bytes) }
    {
        if len == 0 || len > MAX_LEN as u64 {
            return None;
        }
        let len = len as usize;
        if !bytes[..len].iter().all(|b| b.is_ascii_graphic())
            || !bytes[len..].iter().all(|b| *b == 0)
        {
            return None;
        }
        Some(Name { bytes, len })
    }
}

impl fmt::Debug for Name {
    fn fmt<W: fmt::Write>(&self, f: &mut fmt::Formatter<W>) -> fmt::Result {
        for b in self.bytes() {
            f.write_char(char::from(*b))?;
        }
        Ok(())
    }
}

impl PartialEq for Name {
    ghost eq = { pointwise nat_eq };

    ghost laws = { partial_equiv_from_equiv nat_list_eq_equiv };

    fn eq(&self, other: &Self) -> bool {
        self.bytes() == other.bytes()
    }
}

impl Eq for Name {
    ghost laws = { nat_list_eq_equiv };
}

/// Names are ordered by their bytes, and a name stands before its longer continuations.
impl PartialOrd for Name {
    ghost partial_cmp = { λ x y. Some (slice_cmp nat_cmp x y) };

    ghost laws = { texts_po };

    fn partial_cmp(&self, other: &Self) -> Option<Ordering> {
        Some(self.cmp(other))
    }
}

impl Ord for Name {
    ghost cmp = { slice_cmp nat_cmp };

    ghost total = { nat_list_cmp_total };

    ghost matches_partial_cmp = { λ x y. refl };

    ghost matches_eq = { texts_ties };

    fn cmp(&self, other: &Self) -> Ordering {
        self.bytes().cmp(other.bytes())
    }
}

/// The canon name of `name`: two spellings with one canon name are one key.
pub fn canon(style: Style, name: &Name) -> Name
    ensures value { result ≡ canon_of style name.now }
    ensures is_name { IsName result }
    ensures idempotent { canon_of style result ≡ result }
{
    let mut bytes = name.bytes;
    if style.fold {
        fold_case(&mut bytes);
    }
    Name {
        bytes,
        len: name.len,
    }
}

// Turns each letter from `A` to `Z` into its lower-case letter.
fn fold_case(bytes: &mut [u8])
    ensures { bytes.new ≡ map to_ascii_lowercase bytes.old }
{
    for b in bytes.iter_mut() {
        b.make_ascii_lowercase();
    }
}
