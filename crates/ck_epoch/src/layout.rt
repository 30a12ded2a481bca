//! Where the words of a domain lie. The first is the global epoch. Each record has an active word and an epoch word, which its reader
//! stores, on cache lines of their own. The client's words come after them.
ghost use Rattle.std.specs.Prelude.{◌≡◌, ◌<◌, ◌≤◌};
ghost use Rattle.ck_epoch.specs.State.{base, active_word as active, epoch_word as epoch};

/// The word of the global epoch.
pub const GLOBAL: usize = 0;

/// How many words the words that one reader stores are away from those of others: two cache lines.
pub const STRIDE: u64 = 16;

/// The epoch at which a domain begins.
pub const FIRST_EPOCH: u64 = 4;

/// The word in which a record counts its open sections.
pub fn active_word(rec: u64) -> usize
    requires { rec < 64 }
    ensures { result ≡ active rec }
{
    (STRIDE * (rec + 1)) as usize
}

/// The word of a record's epoch.
pub fn epoch_word(rec: u64) -> usize
    requires { rec < 64 }
    ensures { result ≡ epoch rec }
{
    (STRIDE * (rec + 1) + 1) as usize
}

/// The first word of the client.
pub(crate) fn base_word(records: u64) -> usize
    requires { records ≤ 64 }
    ensures { result ≡ base records }
{
    (STRIDE * (records + 1)) as usize
}
