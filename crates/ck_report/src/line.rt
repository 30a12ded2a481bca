ghost use Rattle.std.specs.Prelude.{◌≡◌};
ghost use Rattle.ck_report.specs.Lines.{place_of};

use crate::asked::Asked;
use crate::place::Place;
use ck_history::Reply;

/// What a line of a report says.
#[derive(Clone, Copy)]
pub enum ReportLine<K> {
    /// The reply to the update of this number.
    Update {
        number: u64,
        reply: Reply,
    },
    /// The answer to the query of this number of this file.
    Answer {
        file: u64,
        number: u64,
        asked: Asked<K>,
    },
    /// A pair at the end.
    Pair {
        key: K,
        value: u64,
    },
    /// Nothing follows.
    End,
}

impl<K: Copy> ReportLine<K> {
    /// Where a report stands after this line.
    pub fn place(&self) -> Place<K>
        ensures { result ≡ place_of self.now }
    {
        match *self {
            ReportLine::Update { number, .. } => Place::AfterUpdate(number),
            ReportLine::Answer { file, number, .. } => Place::AfterAnswer { file, number },
            ReportLine::Pair { key, .. } => Place::AfterPair(key),
            ReportLine::End => Place::AfterEnd,
        }
    }
}
