//! A reader's end of the two copies.
ghost use Rattle.std.specs.Prelude.{◌≡◌, ◌+◌, ◌<◌, Some};
ghost use Rattle.std.specs.Ordering.{nat_cmp};
ghost use mathlib.Core.List.{IsPrefix};
ghost use Rattle.left_right.specs.Sides.{view};
ghost use Rattle.ck_history.specs.Map.{find};
ghost use Rattle.ck_snap.specs.Log.{map_after};
ghost use Rattle.ck_snap.specs.Version.{version_log, version_book, Precedes};
ghost use Rattle.ck_snap.specs.Copies.{Known, Shows, seeing};

use crate::rule::{EndView, Folds, Sees};
use crate::snapshot::Snapshot;
use crate::version::Version;
use ck_history::Key;
use core::mem::replace_with;
use crossbeam_utils::Backoff;
use left_right::reader::{Reader, Reading};
use std::marker::Model;
use std::sync::Wait;

/// A reader's end of the two copies, between two enters.
pub type CopyReader = Reader<Snapshot, EndView, Folds>;

/// A reader's end within an enter: it lends the copy that was published then, and the writer leaves that copy as it is until the end leaves.
pub type CopyReading = Reading<Snapshot, EndView, Folds>;

/// Sees version after version.
#[derive(Drop)]
pub struct Subscriber {
    reader: CopyReader,
    /// The version that was seen last.
    version: Version,
}

impl Model for Subscriber {
    ghost use Rattle.ck_snap.specs.Copies.{Known};
    ghost use Rattle.ck_snap.specs.Subscribing.{known_to, IsSubscriber};

    ghost Value = { Known };

    ghost view = { known_to };

    ghost invariant = { IsSubscriber };
}

/// Enters until a guard is handed out.
fn enter_in<R: Wait>(rt: &R, reader: CopyReader) -> CopyReading
    ensures { Shows (view reader.place) result.part.value (view result.place) }
{
    let backoff = Backoff::new();
    let mut reader = reader;
    for _ in rt.forever() {
        match reader.enter_as::<Sees>() {
            Ok(reading) => return reading,
            Err(back) => reader = back, // the writer is gone
        }
        backoff.snooze();
    }
    unreachable!()
}

/// Enters, and tells what was seen.
fn see_in<R: Wait>(rt: &R, reader: CopyReader) -> (CopyReader, Version)
    ensures seen { view result.0.place ≡ seeing (view reader.place) result.1 }
    ensures later { Precedes (view reader.place).seen result.1 }
{
    let reading = enter_in(rt, reader);
    let version = reading.get().version.again();
    (reading.leave(), version)
}

/// Enters, and looks for the key in what was seen.
fn look_in<R: Wait>(rt: &R, reader: CopyReader, key: Key) -> (CopyReader, (Version, Option<u64>))
    ensures seen { view result.0.place ≡ seeing (view reader.place) result.1.0 }
    ensures later { Precedes (view reader.place).seen result.1.0 }
    ensures found { result.1.1 ≡ find nat_cmp (map_after (version_log result.1.0)) key }
{
    let reading = enter_in(rt, reader);
    let version = reading.get().version.again();
    let found = reading.get().book.find(&key);
    (reading.leave(), (version, found))
}

fn see_through<R: Wait>(rt: &R, reader: &mut CopyReader) -> Version
    ensures seen { view reader.new.place ≡ seeing (view reader.old.place) result }
    ensures later { Precedes (view reader.old.place).seen result }
{
    replace_with(reader, rt, |reader, rt| see_in(rt, reader))
}

fn look_through<R: Wait>(rt: &R, reader: &mut CopyReader, key: Key) -> (Version, Option<u64>)
    ensures seen { view reader.new.place ≡ seeing (view reader.old.place) result.0 }
    ensures later { Precedes (view reader.old.place).seen result.0 }
    ensures found { result.1 ≡ find nat_cmp (map_after (version_log result.0)) key }
{
    replace_with(reader, rt, |reader, rt| look_in(rt, reader, key))
}

impl Subscriber {
    /// The reader, which has seen this version.
    pub fn over(reader: CopyReader, version: Version) -> Subscriber
        requires { (view reader.place).seen ≡ Some version }
        ensures { result ≡ record { book = version_book version; log = version_log version; enters = (view reader.place).enters } }
    {
        Subscriber { reader, version }
    }

    /// What was seen last.
    pub fn version(&self) -> &Version
        ensures { (version_book result.now ≡ self.now.book) × (version_log result.now ≡ self.now.log) }
    {
        &self.version
    }

    /// Sees what is published, by one ruled enter.
    pub fn see<R: Wait>(&mut self, rt: &R)
        ensures end { self.new ≡ record self.old { log = self.new.log; enters = self.old.enters + 1 } }
        ensures later { IsPrefix self.old.log self.new.log }
    {
        self.version = see_through(rt, &mut self.reader);
    }

    /// Sees what is published, by one ruled enter, and looks for the key there.
    pub fn look<R: Wait>(&mut self, rt: &R, key: Key) -> Option<u64>
        ensures end { self.new ≡ record self.old { log = self.new.log; enters = self.old.enters + 1 } }
        ensures later { IsPrefix self.old.log self.new.log }
        ensures found { result ≡ find nat_cmp (map_after self.new.log) key }
    {
        let (version, found) = look_through(rt, &mut self.reader, key);
        self.version = version;
        found
    }

    /// Enters until it sees this version.
    pub fn catch_up<R: Wait>(&mut self, rt: &R, version: &Version)
        requires { self.old.book ≡ version_book version.now }
        ensures end { self.new ≡ record self.old { log = version_log version.now; enters = self.new.enters } }
        ensures later { IsPrefix self.old.log (version_log version.now) }
        ensures enters { self.old.enters < self.new.enters }
    {
        let backoff = Backoff::new();
        for _ in rt.forever() {
            self.see(rt);
            // Of two prefixes of one log the shorter is a prefix of the longer, so two that are as long are one.
            if self.version().agrees(version) {
                return;
            }
            backoff.snooze();
        }
        unreachable!()
    }
}
