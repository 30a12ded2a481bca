//! Where the words of a registry lie. The global epoch and the words of each record's sections lie as in a domain of ck_epoch. Behind them
//! each record has a word for its state, on cache lines of its own.
ghost use Rattle.std.specs.Prelude.{◌≡◌, ◌<◌, ◌≤◌};
ghost use Rattle.ck_registry.specs.State.{state_word as state};

use ck_epoch::STRIDE;

/// The state of a record that nobody holds.
pub(crate) const FREE: u64 = 0;

/// The state of a record that a member holds.
pub(crate) const HELD: u64 = 1;

/// Fewer counted calls than this may be made with a token.
pub const MOST_CALLS: u64 = 1_099_511_627_776;

/// The word of a record's state.
pub(crate) fn state_word(records: u64, rec: u64) -> usize
    requires { (rec ≤ records) × (records ≤ 64) }
    ensures { result ≡ state records rec }
{
    (STRIDE * (records + rec + 1)) as usize
}
