//! One of the two copies.
use crate::version::Version;
use ck_history::{FixedBook, Key};
use left_right::Absorb;
use std::alloc::AllocError;

/// A version of the map.
#[derive(Drop)]
pub struct Snapshot {
    pub book: FixedBook<Key>,
    pub version: Version,
}

/// A copy absorbs the next version: it makes that version's last update.
impl Absorb<Version> for Snapshot {
    ghost use Rattle.ck_snap.specs.Version.{book_with};

    type State = Snapshot;

    ghost state = { λ s. s };

    ghost applied = { λ s next. record { book = book_with s.book next.last; version = next } };

    ghost never_fails = { Unit {0} };

    fn absorb_first(&mut self, next: &Version, _other: &Snapshot) -> Result<(), AllocError> {
        if let Some(entry) = next.last {
            self.book.apply(entry.update);
        }
        self.version = next.again();
        Ok(())
    }
}
