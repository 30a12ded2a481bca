//! A client with signal words.
ghost use Rattle.std.specs.Prelude.{◌≡◌, ◌<◌, ◌≤◌, ◌^◌};
ghost use Rattle.ck_signal.specs.Words.{applied_word as applied, answered_word as answered, size_with};

use ck_epoch::{Client, STRIDE, Within};

/// The client, and behind its words the word `applied`, in which the writer stores the length of its log, and a word `answered` for each
/// record, in which its reader stores how many answers it has given. In accounts its calls have the names 11 to 14.
#[derive(Drop)]
pub struct Signals<C> {
    pub client: C,
    pub records: u64,
    ghost few: { (1 ≤ records) × (records ≤ 64) },
}

impl<C: Client> Signals<C> {
    /// The client with signals for so many records.
    pub fn new(client: C, records: u64) -> Signals<C>
        requires records { (1 ≤ records) × (records ≤ 64) }
        requires words { C.meaning.size client ≤ 2 ^ 32 }
        ensures { (result.client ≡ client) × (result.records ≡ records) }
    {
        Signals { client, records }
    }
}

impl<C: Client> Client for Signals<C> {
    ghost use Rattle.ck_signal.specs.Signals.{signals};
    ghost use Rattle.ck_signal.specs.Laws.{starts as starts_so, passes as passes_so, grows as grows_so, rises as rises_so};

    ghost meaning = { signals C.meaning };

    fn words(&self) -> u64 {
        self.client.words() + STRIDE * (self.records + 2)
    }

    fn first(&self, at: u64) -> u64 {
        if at < self.client.words() {
            self.client.first(at)
        } else {
            0
        }
    }

    ghost starts = { starts_so C.meaning C.starts };

    ghost passes = { passes_so C.meaning C.passes };

    ghost grows = { grows_so C.meaning C.grows };

    ghost rises = { rises_so C.meaning C.rises };
}

impl<C: Client, D: Within<C>> Within<C> for Signals<D> {
    ghost use Rattle.ck_signal.specs.Laws.{within as within_so};

    ghost place = { λ c. D.place c.client };

    ghost part = { λ c. D.part c.client };

    fn base(&self) -> u64 {
        self.client.base()
    }

    fn inner(&self) -> &C {
        self.client.inner()
    }

    ghost within = { within_so C.meaning D.meaning D.place D.part D.within };
}

// The word `applied`, as a word of the client.
pub(crate) fn applied_word<C: Client>(signals: &Signals<C>) -> u64
    requires small { size_with (C.meaning.size signals.now.client) signals.now.records ≤ 2 ^ 33 }
    ensures { result ≡ applied (C.meaning.size signals.now.client) }
{
    signals.client.words() + STRIDE
}

// The word `answered` of a record.
pub(crate) fn answered_word<C: Client>(signals: &Signals<C>, rec: u64) -> u64
    requires small { size_with (C.meaning.size signals.now.client) signals.now.records ≤ 2 ^ 33 }
    requires record { rec < signals.now.records }
    ensures { result ≡ answered (C.meaning.size signals.now.client) rec }
{
    signals.client.words() + STRIDE * (rec + 2)
}
