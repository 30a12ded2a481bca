//! The writer's end of the two copies.
ghost use Rattle.std.specs.Prelude.{◌≡◌, ◌<◌, ◌≤◌, ◌^◌, ◌∷◌, ◌++◌, [], length, drop, Some, IfOk, OnOk, OnErr};
ghost use Rattle.std.specs.Ordering.{nat_cmp};
ghost use Rattle.left_right.specs.Sides.{view};
ghost use Rattle.ck_history.specs.Map.{step};
ghost use Rattle.ck_snap.specs.Growing.{LogPart};
ghost use Rattle.ck_snap.specs.Log.{most_pairs, map_after, last_of};
ghost use Rattle.ck_snap.specs.Version.{version_log, version_book, FollowsVersion};
ghost use Rattle.ck_snap.specs.Copies.{snapshot_of, Known};

use crate::log::{LogEnd, LogWord};
use crate::rule::{EndView, Folds, Passes, Sees};
use crate::snapshot::Snapshot;
use crate::subscriber::Subscriber;
use crate::version::Version;
use ck_history::{FixedBook, Key, LogEntry, Reply, Update};
use core::mem::replace_with;
use left_right::writer::Writer;
use std::alloc::{AllocError, Global};
use std::marker::Model;
use std::sync::Wait;

/// The most pairs of a dictionary.
const CAPACITY: u64 = 65_536;

/// The writer's end of the two copies, as `left_right` has it.
pub type CopyWriter = Writer<Snapshot, Version, EndView, Folds>;

/// Publishes version after version. Contracts see what is published. It isn't `Drop`: end it by `finish`.
pub struct Publisher {
    writer: CopyWriter,
    /// The published version, or the same one settled.
    version: Version,
    /// The end of the log, which has what that version has settled.
    end: LogEnd,
}

impl Model for Publisher {
    ghost use Rattle.ck_snap.specs.Growing.{LogPart};
    ghost use Rattle.ck_snap.specs.Publishing.{published_by, IsPublisher};

    ghost Value = { LogPart };

    ghost view = { published_by };

    ghost invariant = { IsPublisher };
}

/// Shows the one version that is pending. It waits for the readers of the copy from before.
fn publish_in<R: Wait>(rt: &R, writer: CopyWriter, next: &Version) -> (CopyWriter, ())
    requires pending { drop writer.behind writer.log.items ≡ next.now ∷ [] }
    requires follows { FollowsVersion writer.desk.shown.value.version next.now }
    ensures shown { result.0.desk.shown.value ≡ snapshot_of next.now }
    ensures knows { (view result.0.desk.place).seen ≡ Some next.now }
    ensures settled { drop result.0.behind result.0.log.items ≡ [] }
{
    let _ = next;
    let (writer, published) = writer.publish_as::<Sees, R>(rt);
    published.unwrap();
    (writer, ())
}

fn publish_through<R: Wait>(rt: &R, writer: &mut CopyWriter, next: &Version)
    requires pending { drop writer.old.behind writer.old.log.items ≡ next.now ∷ [] }
    requires follows { FollowsVersion writer.old.desk.shown.value.version next.now }
    ensures shown { writer.new.desk.shown.value ≡ snapshot_of next.now }
    ensures knows { (view writer.new.desk.place).seen ≡ Some next.now }
    ensures settled { drop writer.new.behind writer.new.log.items ≡ [] }
{
    replace_with(writer, rt, |writer, rt| publish_in(rt, writer, next))
}

/// A copy with no pair.
fn empty(alloc: Global, version: &Version) -> Result<Snapshot, AllocError>
    ensures { IfOk result (λ s. s ≡ record { book = record { most = most_pairs; pairs = [] }; version = version.now }) }
{
    Ok(Snapshot {
        book: FixedBook::new(alloc, CAPACITY)?,
        version: version.again(),
    })
}

impl Publisher {
    /// Two copies with no pair, and the word of their log. They are published once, so that the writer knows their log.
    pub fn new<R: Wait>(
        rt: &R,
        alloc: Global,
        readers: u64,
    ) -> Result<(Publisher, LogWord), AllocError>
        requires { (1 ≤ readers) × (readers ≤ 64) }
        ensures { IfOk result (λ r. r.0 ≡ record { book = r.1; log = [] }) }
    {
        let (word, end) = LogWord::new(rt);
        let version = Version {
            prefix: end.prefix(),
            last: None,
        };
        let first = empty(alloc, &version)?;
        let second = empty(alloc, &version)?;
        let mut writer: CopyWriter = Writer::new(alloc, first, second, readers as usize)?;
        if writer.append(version.again()).is_err() {
            drop(writer.take(rt));
            return Err(AllocError);
        }
        // Only a publish tells the writer which version readers take, and so which log a new reader learns of.
        let (writer, ()) = publish_in(rt, writer, &version);
        let publisher = Publisher {
            writer,
            version,
            end,
        };
        Ok((publisher, word))
    }

    /// A reader that has seen what is published.
    pub fn subscriber(&mut self) -> Result<Subscriber, AllocError>
        ensures same { self.new ≡ self.old }
        ensures ok { IfOk result (λ s. s ≡ record { book = self.old.book; log = self.old.log; enters = 0 }) }
    {
        let mut reader = self.writer.factory().reader()?;
        reader.learn::<Passes>(self.writer.tell::<Passes>());
        let version = self.writer.published().version.again();
        Ok(Subscriber::over(reader, version))
    }

    /// The published pairs, by ascending key.
    pub fn entries(&self, alloc: Global) -> Result<Vec<(Key, u64)>, AllocError>
        ensures { IfOk result (λ v. v.items ≡ map_after self.now.log) }
    {
        Vec::from_slice(alloc, self.writer.published().book.pairs())
    }

    /// What is published, or the same version settled.
    pub fn version(&self) -> &Version
        ensures { (version_book result.now ≡ self.now.book) × (version_log result.now ≡ self.now.log) }
    {
        &self.version
    }

    /// Makes the update, and publishes that. The reply is the map's.
    pub fn update<R: Wait>(
        &mut self,
        rt: &R,
        word: &LogWord,
        update: &Update<Key>,
    ) -> Result<Reply, AllocError>
        requires book { self.old.book ≡ word.now }
        requires room { length self.old.log ≤ 2 ^ 62 }
        ensures reply { IfOk result (λ r. r ≡ (step nat_cmp most_pairs (map_after self.old.log) update.now).1) }
        ensures ok { IfOk result (λ r. self.new ≡ record self.old { log = self.old.log ++ record { update = update.now; reply = r } ∷ [] }) }
        ensures err { OnErr result (self.new ≡ self.old) }
    {
        let reply = self.writer.published().book.reply(update);
        let entry = LogEntry {
            update: *update,
            reply,
        };
        self.publish(rt, word, Some(entry))?;
        Ok(reply)
    }

    /// Publishes the next version: all updates so far, and then this one, if there is one.
    pub fn publish<R: Wait>(
        &mut self,
        rt: &R,
        word: &LogWord,
        last: Option<LogEntry<Key>>,
    ) -> Result<(), AllocError>
        requires book { self.old.book ≡ word.now }
        requires room { length self.old.log ≤ 2 ^ 62 }
        ensures ok { OnOk result (self.new ≡ record self.old { log = self.old.log ++ last_of last }) }
        ensures err { OnErr result (self.new ≡ self.old) }
    {
        // The update that is published already goes into the log first. From here on only the queue may want memory, and where it does
        // nothing of this call has been done.
        self.version.settle(word, &mut self.end);
        let prefix = self.version.prefix.again();
        let next = Version { prefix, last };
        if self.writer.append(next.again()).is_err() {
            return Err(AllocError);
        }
        publish_through(rt, &mut self.writer, &next);
        self.version = next;
        Ok(())
    }

    /// Uses it up. Readers find that it is gone.
    pub fn finish<R: Wait>(self, rt: &R) {
        let Publisher {
            writer,
            version: _version,
            end: _end,
        } = self;
        drop(writer.take(rt));
    }
}
