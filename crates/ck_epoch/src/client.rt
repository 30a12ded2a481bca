//! Structures over the words of a domain.
ghost use Rattle.std.specs.Prelude.{◌≡◌, ℕ, ◌<◌, ◌≤◌, ◌^◌};
ghost use Rattle.ck_epoch.specs.Client.{Client as Meaning, Starts, Passes, LogGrows, AnsweredRises};
ghost use Rattle.ck_epoch.specs.Within.{IsWithin};

/// A structure over the words of a domain. In accounts the calls of a domain have the names 1 to 10, so its own have others.
pub trait Client {
    // Its words, the accounts that its calls make, what it may retire, and what its accounts tell.
    ghost meaning: { Meaning Self };

    /// How many words it has.
    fn words(&self) -> u64
        requires { meaning.size self.now ≤ 2 ^ 33 }
        ensures { result ≡ meaning.size self.now };

    /// The word at this place when the domain is made.
    fn first(&self, at: u64) -> u64
        requires place { at < meaning.size self.now }
        requires small { meaning.size self.now ≤ 2 ^ 33 }
        ensures { result ≡ meaning.first self.now at };

    // Tokens that made no step are its own.
    ghost starts: { Starts meaning };

    // Each step of another may stand between its steps.
    ghost passes: { Passes meaning };

    // As an account grows, the log before is a prefix of the log after, and the number of answered calls doesn't fall.
    ghost grows: { LogGrows meaning };

    ghost rises: { AnsweredRises meaning };
}

/// A client that holds the client `C`, or is `C` itself. A call of C's structure that has only the domain finds C by it, and C's words.
pub trait Within<C: Client>: Client {
    // The place of C's first word among its own, and the client C that it holds.
    ghost place: { Self → ℕ };

    ghost part: { Self → C };

    /// The place of C's first word among its own.
    fn base(&self) -> u64
        requires { Self.meaning.size self.now ≤ 2 ^ 33 }
        ensures { result ≡ place self.now };

    /// The client C that it holds.
    fn inner(&self) -> &C
        ensures { result.now ≡ part self.now };

    // Its words, items and accounts are C's as far as they are C's.
    ghost within: { IsWithin C.meaning Self.meaning place part };
}
