ghost use Rattle.std.specs.Prelude.{IsTrue, ◌≡◌, ◌↔◌};
ghost use Rattle.ck_report.specs.declared.place.Place.TheVariants.{AfterEnd};
ghost use Rattle.ck_report.specs.Lines.{Next};

use std::cmp::Ordering;

/// The most query files that a report may name.
pub const MOST_FILES: u64 = 64;

/// Where a report stands: after which line.
#[derive(Clone, Copy)]
pub enum Place<K> {
    /// The reply of this number, or none yet at 0.
    AfterUpdate(u64),
    /// The answer of this number of this query file.
    AfterAnswer { file: u64, number: u64 },
    /// The pair of this key.
    AfterPair(K),
    /// The end.
    AfterEnd,
}

impl<K: Ord + Copy> Place<K> {
    /// Whether a line that leads to the place `next` may follow here.
    pub fn leads_to(&self, next: &Place<K>) -> bool
        ensures { IsTrue result ↔ Next K.cmp self.now next.now }
    {
        match *self {
            Place::AfterUpdate(i) => match *next {
                Place::AfterUpdate(j) => j > 0 && j - 1 == i,
                Place::AfterAnswer { file, number } => 1 <= file
                    && file <= MOST_FILES
                    && number == 1,
                _ => true,
            },
            Place::AfterAnswer {
                file: last,
                number: i,
            } => match *next {
                Place::AfterUpdate(_) => false,
                Place::AfterAnswer { file, number } => {
                    file == last && number > 0 && number - 1 == i
                        || last < file && file <= MOST_FILES && number == 1
                }
                _ => true,
            },
            Place::AfterPair(key) => match *next {
                Place::AfterPair(above) => key.cmp(&above) == Ordering::Less,
                Place::AfterEnd => true,
                _ => false,
            },
            Place::AfterEnd => false,
        }
    }

    /// Whether the report is over.
    pub fn is_end(&self) -> bool
        ensures { IsTrue result ↔ (self.now ≡ AfterEnd) }
    {
        matches!(self, Place::AfterEnd)
    }
}
