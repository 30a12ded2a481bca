//! The table as a client of a domain.
ghost use Rattle.std.specs.Prelude.{◌≡◌, ◌<◌, ◌≤◌, ◌^◌};
ghost use Rattle.ck_htlaw.specs.Layout.{counters_of, table_words};

use ck_epoch::{Client, Within};

/// A table's words in a domain: the root, the counters, and the arena. In accounts its calls have the names 15 to 19.
#[derive(Clone, Copy, Drop)]
pub struct HtClient {
    /// Keys are hashed with it.
    pub seed: u64,
    /// The arena has 2^arena_log words, or 32 where that is less, with one counter for each 32 of them.
    pub arena_log: u64,
}

impl Client for HtClient {
    ghost use Rattle.ck_htlaw.specs.Client.{table};
    ghost use Rattle.ck_htlaw.specs.Laws.{starts as starts_so, passes as passes_so, grows as grows_so, rises as rises_so};

    ghost meaning = { table };

    fn words(&self) -> u64 {
        1 + 33 * counters(self)
    }

    fn first(&self, at: u64) -> u64 {
        if at == 0 {
            32 * (1 + counters(self)) + OPENING_LOG
        } else {
            0
        }
    }

    ghost starts = { starts_so };

    ghost passes = { passes_so };

    ghost grows = { grows_so };

    ghost rises = { rises_so };
}

impl Within<HtClient> for HtClient {
    ghost use Rattle.std.specs.Prelude.{zero};
    ghost use Rattle.ck_htlaw.specs.Client.{table};
    ghost use Rattle.ck_epoch.specs.Itself.{itself};

    ghost place = { λ c. 0 };

    ghost part = { λ c. c };

    fn base(&self) -> u64 {
        0
    }

    fn inner(&self) -> &HtClient {
        self
    }

    ghost within = { itself table };
}

// The logarithm of the slots at opening.
const OPENING_LOG: u64 = 3;

/// How many counters the table has, one for each 32 words of its arena.
pub fn counters(client: &HtClient) -> u64
    requires small { table_words (counters_of client.now) ≤ 2 ^ 33 }
    ensures { result ≡ counters_of client.now }
{
    1 << client.arena_log.saturating_sub(5)
}
