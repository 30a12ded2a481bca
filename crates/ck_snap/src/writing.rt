//! The calls of the writer.
ghost use Rattle.std.specs.Prelude.{◌≡◌, ◌<◌, ◌^◌, ◌++◌, ◌∷◌, [], IfOk, OnErr};
ghost use Rattle.ck_history.specs.declared.update.Update.TheVariants.{Set, Put, Del, Tidy};
ghost use Rattle.ck_history.specs.declared.event.WriterEvent.TheVariants.{Told};
ghost use Rattle.ck_snap.specs.Log.{map_after};
ghost use Rattle.ck_snap.specs.Tokens.{IsWriterOf, IsCurrent, HasUpdated, log};

use crate::tokens::{Snap, SnapWriter};
use ck_history::{Key, Reply, Update};
use std::alloc::{AllocError, Global};
use std::sync::Wait;

impl Snap {
    /// Adds the pair or replaces the key's value, and publishes that. An `AllocError` comes for want of memory alone, and changes nothing.
    pub fn set<R: Wait>(
        &self,
        rt: &R,
        w: &mut SnapWriter,
        key: Key,
        value: u64,
    ) -> Result<Reply, AllocError>
        requires token { IsWriterOf self.now w.old }
        requires calls { w.old.calls < 2 ^ 40 }
        ensures ok { IfOk result (HasUpdated w.old (Set key value) w.new) }
        ensures err { OnErr result (w.new ≡ w.old) }
    {
        self.update(rt, w, Update::Set(key, value))
    }

    /// Adds the pair where the key is absent, and publishes that. An `AllocError` is as in `set`.
    pub fn put<R: Wait>(
        &self,
        rt: &R,
        w: &mut SnapWriter,
        key: Key,
        value: u64,
    ) -> Result<Reply, AllocError>
        requires token { IsWriterOf self.now w.old }
        requires calls { w.old.calls < 2 ^ 40 }
        ensures ok { IfOk result (HasUpdated w.old (Put key value) w.new) }
        ensures err { OnErr result (w.new ≡ w.old) }
    {
        self.update(rt, w, Update::Put(key, value))
    }

    /// Takes the key's pair out, and publishes that. An `AllocError` is as in `set`.
    pub fn remove<R: Wait>(&self, rt: &R, w: &mut SnapWriter, key: Key) -> Result<Reply, AllocError>
        requires token { IsWriterOf self.now w.old }
        requires calls { w.old.calls < 2 ^ 40 }
        ensures ok { IfOk result (HasUpdated w.old (Del key) w.new) }
        ensures err { OnErr result (w.new ≡ w.old) }
    {
        self.update(rt, w, Update::Del(key))
    }

    /// Changes no pair, and is an update like the others. An `AllocError` is as in `set`.
    pub fn tidy<R: Wait>(&self, rt: &R, w: &mut SnapWriter) -> Result<Reply, AllocError>
        requires token { IsWriterOf self.now w.old }
        requires calls { w.old.calls < 2 ^ 40 }
        ensures ok { IfOk result (HasUpdated w.old Tidy w.new) }
        ensures err { OnErr result (w.new ≡ w.old) }
    {
        self.update(rt, w, Update::Tidy)
    }

    /// Makes one update, and publishes it.
    fn update<R: Wait>(
        &self,
        rt: &R,
        w: &mut SnapWriter,
        update: Update<Key>,
    ) -> Result<Reply, AllocError>
        requires token { IsWriterOf self.now w.old }
        requires calls { w.old.calls < 2 ^ 40 }
        ensures ok { IfOk result (HasUpdated w.old update w.new) }
        ensures err { OnErr result (w.new ≡ w.old) }
    {
        let reply = w.publisher.update(rt, &self.log, &update)?;
        self.journals.note_update(&mut w.journal, &update, reply);
        w.calls += 1;
        Ok(reply)
    }

    /// Answers 0, which tells nothing.
    pub fn answered(&self, w: &mut SnapWriter, reader: u64) -> u64
        requires token { IsWriterOf self.now w.old }
        ensures zero { result ≡ 0 }
        ensures writer { w.new ≡ record w.old { done = w.old.done ++ Told reader 0 ∷ [] } }
    {
        self.journals.note_told(&mut w.journal, reader, 0);
        0
    }

    /// The pairs after all updates, by ascending key.
    pub fn entries(&self, alloc: Global, w: &SnapWriter) -> Result<Vec<(Key, u64)>, AllocError>
        requires { IsWriterOf self.now w.now }
        ensures pairs { IfOk result (λ v. v.items ≡ map_after (log w.now)) }
        ensures current { IsCurrent w.now }
    {
        w.publisher.entries(alloc)
    }

    /// Uses the writer up. From then on a reader's call waits for good.
    pub fn finish<R: Wait>(&self, rt: &R, w: SnapWriter)
        requires { IsWriterOf self.now w }
    {
        let SnapWriter {
            publisher,
            journal: _journal,
            calls: _,
        } = w;
        publisher.finish(rt);
    }
}

impl SnapWriter {
    /// The number of counted calls that were made with it: all that take it by `&mut` but `answered`.
    pub fn calls(&self) -> u64
        ensures { result ≡ self.now.calls }
    {
        self.calls
    }
}
