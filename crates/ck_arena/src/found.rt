//! What a poll tells of the readers.
ghost use Rattle.std.specs.Prelude.{◌≡◌};
ghost use Rattle.ck_arena.specs.Found.{found_by};

use ck_epoch::Poll;
use ck_history::Busy;

// The record that a poll loaded active, and its epoch, where it loaded this global epoch and answered so. Where the poll moved the global
// epoch, each active record had the one that it loaded.
pub(crate) fn found_active(epoch: u64, answer: Poll) -> Option<Busy>
    ensures { result ≡ found_by epoch answer }
{
    match answer {
        Poll::Clear { .. } => None,
        Poll::Moved { rec, .. } => Some(Busy { rec, epoch }),
        Poll::Blocked { rec, epoch, .. } => Some(Busy { rec, epoch }),
    }
}
