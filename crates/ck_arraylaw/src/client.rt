//! The array as a client of a domain.
ghost use Rattle.std.specs.Prelude.{◌≡◌, ◌^◌};

use ck_epoch::{Client, Within};

/// The array's words begin with the root: where the region of the committed list begins.
pub const ROOT: u64 = 0;

/// The arena follows.
pub const ARENA: u64 = 1;

/// The arena has 2^15 words.
pub const ARENA_LOG: u64 = 15;

/// A region has at least 2^3 words.
pub const LEAST_LOG: u64 = 3;

/// An array's words in a domain: the root and the arena. In accounts its calls have the names 25 to 28.
#[derive(Clone, Copy, Drop)]
pub struct ArrayClient;

impl Client for ArrayClient {
    ghost use Rattle.ck_arraylaw.specs.Client.{array};
    ghost use Rattle.ck_arraylaw.specs.Laws.{starts as starts_so, passes as passes_so, grows as grows_so, rises as rises_so};

    ghost meaning = { array };

    fn words(&self) -> u64 {
        ARENA + (1 << ARENA_LOG)
    }

    fn first(&self, at: u64) -> u64 {
        if at == 0 { ARENA } else { 0 }
    }

    ghost starts = { starts_so };

    ghost passes = { passes_so };

    ghost grows = { grows_so };

    ghost rises = { rises_so };
}

impl Within<ArrayClient> for ArrayClient {
    ghost use Rattle.std.specs.Prelude.{zero};
    ghost use Rattle.ck_arraylaw.specs.Client.{array};
    ghost use Rattle.ck_epoch.specs.Itself.{itself};

    ghost place = { λ c. 0 };

    ghost part = { λ c. c };

    fn base(&self) -> u64 {
        0
    }

    fn inner(&self) -> &ArrayClient {
        self
    }

    ghost within = { itself array };
}
