//! Which version of the map a copy is.
ghost use Rattle.std.specs.Prelude.{◌≡◌, ◌≤◌, ◌^◌, length, ◌↔◌, IsTrue, None};
ghost use Rattle.ck_snap.specs.Version.{version_log, version_book};

use crate::log::{LogEnd, LogWord, Prefix};
use ck_history::{Key, LogEntry};

/// The part of the log that a version comes from: a prefix of it, and perhaps one update more. Such an update is answered,
/// and is put into the log before the next version.
#[derive(Drop)]
pub struct Version {
    pub prefix: Prefix,
    pub last: Option<LogEntry<Key>>,
}

impl Version {
    /// A copy of it.
    pub fn again(&self) -> Version
        ensures { result ≡ self.now }
    {
        Version {
            prefix: self.prefix.again(),
            last: self.last,
        }
    }

    /// How many updates it comes from.
    pub fn count(&self) -> u64
        ensures { result ≡ length (version_log self.now) }
    {
        match self.last {
            Some(_) => self.prefix.count() + 1,
            None => self.prefix.count(),
        }
    }

    /// The same version, with its last update in the log.
    pub fn settle(&mut self, word: &LogWord, end: &mut LogEnd)
        requires end { end.old ≡ self.old.prefix }
        requires book { version_book self.old ≡ word.now }
        requires room { length (version_log self.old) ≤ 2 ^ 62 }
        ensures same { (version_book self.new ≡ version_book self.old) × (version_log self.new ≡ version_log self.old) }
        ensures settled { self.new.last ≡ None }
        ensures end { end.new ≡ self.new.prefix }
    {
        if let Some(entry) = self.last {
            end.add(word, &entry);
            self.prefix = end.prefix();
            self.last = None;
        }
    }

    /// Whether both are in the log whole, and as long. Then they come from the same updates.
    pub fn agrees(&self, other: &Version) -> bool
        requires { version_book self.now ≡ version_book other.now }
        ensures when { IsTrue result ↔ (self.now.last ≡ None) × (other.now.last ≡ None) × (length self.now.prefix.log ≡ length other.now.prefix.log) }
        ensures same { IsTrue result → version_log self.now ≡ version_log other.now }
    {
        self.last.is_none() && other.last.is_none() && self.prefix.is_as_long(&other.prefix)
    }
}
