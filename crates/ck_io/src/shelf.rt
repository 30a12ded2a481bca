//! Where files come from.
ghost use Rattle.std.specs.Prelude.{◌≡◌, ℕ, ◌≤◌, ◌<◌, ◌↔◌, List, length, Option, IfOk, IfErr, IfSome, vec_len};
ghost use Rattle.ck_io.specs.declared.shelf.ShelfError.TheVariants.{Memory};
ghost use Rattle.ck_io.specs.Faults.{NeverFall};
ghost use Rattle.ck_io.specs.Shelf.{HasCause, IsSettled, IsTooLong, IsUnfailed};

use std::alloc::{AllocError, Global};
use std::error::Error;
use std::fmt;

/// Why a fetch gave no bytes.
#[derive(Clone, Copy, Debug, PartialEq, Eq)]
pub enum ShelfError {
    /// The file couldn't be read.
    Failed,
    /// The file has more bytes than the limit. `bytes` is the number read, one more than the limit.
    TooLong { bytes: u64 },
    /// There was no memory for the bytes.
    Memory,
}

impl fmt::Display for ShelfError {
    fn fmt<W: fmt::Write>(&self, f: &mut fmt::Formatter<W>) -> fmt::Result {
        match self {
            ShelfError::Failed => write!(f, "cannot read the file"),
            ShelfError::TooLong { bytes } => write!(f, "the file has at least {bytes} bytes"),
            ShelfError::Memory => write!(f, "out of memory"),
        }
    }
}

impl Error for ShelfError {}

impl From<AllocError> for ShelfError {
    ghost from_gives = { λ _ e. e ≡ Memory };

    fn from(_: AllocError) -> Self {
        ShelfError::Memory
    }
}

/// Files under names. A name is the list of its bytes.
pub trait Shelf {
    /// The bytes held under a name, or `None` where the shelf doesn't tell them.
    ghost held: { Self → List ℕ → Option (List ℕ) };

    /// How often a fetch of a name has failed.
    ghost faults: { Self → List ℕ → ℕ };

    /// The bytes held under a name, if they are at most `limit`.
    fn fetch(&mut self, alloc: Global, name: &str, limit: u64) -> Result<Vec<u8>, ShelfError>
        ensures bytes { IfOk result (λ bytes. IfSome (held self.old name.now) (λ told. bytes.items ≡ told)) }
        ensures within { IfOk result (λ bytes. vec_len bytes ≤ limit) }

        // `Failed` only where the name's count rose in this call. `TooLong` exactly where more than the limit is held,
        // if no fault and no want of memory comes first.
        ensures cause { IfErr result
            (HasCause (held self.old name.now) limit (faults self.old name.now) (faults self.new name.now)) }
        ensures too_long { IfSome (held self.old name.now) (λ told.
            IsSettled result → (IsTooLong result ↔ (limit < length told))) }

        // No call changes what is held, no count falls, and no answer but `Failed` raises one: want of memory leaves the
        // shelf's counts as they were.
        ensures unchanged { held self.new ≡ held self.old }
        ensures lasting { NeverFall (faults self.old) (faults self.new) }
        ensures uncounted { IsUnfailed result → faults self.new ≡ faults self.old };
}
