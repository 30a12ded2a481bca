//! The hash table as a dictionary that the pool runs on.
ghost use Rattle.std.specs.Prelude.{◌≡◌, ◌+◌, ◌-◌, ◌<◌, ◌≤◌, ◌^◌, [], ◌∷◌, ◌++◌, IsOk, MatchResult};
ghost use Rattle.ck_epoch.specs.State.{state as epochs};
ghost use Rattle.ck_history.specs.declared.event.WriterEvent.TheVariants.{Updated};
ghost use Rattle.ck_ht.specs.Events.{hand_events};
ghost use Rattle.ck_jobs.specs.OnHt.{IsTableWriter, HasRoomAfter};

use ck_epoch::Item;
use ck_history::{Busy, Key, Reply, Update};
use ck_ht::{Ht, HtPass, HtWriter};
use ck_pool::Dict;
use ck_script::{AskLine, Lines, UpLine};
use ck_words::Back;
use std::alloc::{AllocError, Global};
use std::marker::PhantomData;
use std::sync::Wait;

/// A hash table whose writer has a handler of the type `F`.
#[derive(Drop)]
pub struct OnHt<F> {
    pub table: Ht,
    pub of: PhantomData<F>,
}

impl<F: Fn(Item) -> Back> OnHt<F> {
    // Makes the update. After Busy nothing was done.
    fn make(&self, hand: &mut HtWriter<F>, call: &Update<Key>) -> Result<Reply, Busy>
        requires writer { IsTableWriter F.pre F.post self.now.table hand.old }
        requires calls { hand.old.writer.calls < 2 ^ 40 - 8 }
        requires room { HasRoomAfter self.now.table (hand_events self.now.table.origin hand.old.writer.token) call.now }
        ensures writer { IsTableWriter F.pre F.post self.now.table hand.new }
        ensures calls { hand.new.writer.calls ≤ hand.old.writer.calls + 3 }
        ensures events { MatchResult result (λ reply. hand_events self.now.table.origin hand.new.writer.token ≡ hand_events self.now.table.origin hand.old.writer.token ++ Updated call.now reply ∷ []) (λ busy. hand_events self.now.table.origin hand.new.writer.token ≡ hand_events self.now.table.origin hand.old.writer.token) }
        ensures ok { (epochs hand.old.writer.token).pending ≡ [] → IsOk result }
    {
        match *call {
            Update::Set(key, value) => self.table.set(hand, key, value),
            Update::Put(key, value) => self.table.put(hand, key, value),
            Update::Del(key) => Ok(self.table.remove(hand, key)),
            Update::Tidy => self.table.tidy(hand),
        }
    }

    // Makes the update. Where the table is busy, it does so after a barrier: nothing is pending then, so that a rebuild finds a free region.
    fn make_surely<R: Wait>(&self, rt: &R, hand: &mut HtWriter<F>, call: &Update<Key>) -> Reply
        requires writer { IsTableWriter F.pre F.post self.now.table hand.old }
        requires calls { hand.old.writer.calls < 2 ^ 40 - 12 }
        requires room { HasRoomAfter self.now.table (hand_events self.now.table.origin hand.old.writer.token) call.now }
        ensures writer { IsTableWriter F.pre F.post self.now.table hand.new }
        ensures calls { hand.new.writer.calls ≤ hand.old.writer.calls + 7 }
        ensures events { hand_events self.now.table.origin hand.new.writer.token ≡ hand_events self.now.table.origin hand.old.writer.token ++ Updated call.now result ∷ [] }
    {
        if let Ok(reply) = self.make(hand, call) {
            return reply;
        }
        let _regions = self.table.barrier(rt, hand);
        match self.make(hand, call) {
            Ok(reply) => reply,
            Err(_) => unreachable!(),
        }
    }
}

impl<F: Fn(Item) -> Back + Send + Sync + Drop> Dict for OnHt<F> {
    ghost use Rattle.ck_signal.specs.Signals.{readers as readers_of};
    ghost use Rattle.ck_jobs.specs.OnHt.{writer_hand, pass_eye};

    type Call = Update<Key>;

    type Reply = Reply;

    type Ask = Key;

    type Answer = Option<u64>;

    type UpFile = Lines<UpLine<Update<Key>>>;

    type AskFile = Lines<AskLine<Key>>;

    type Hand = HtWriter<F>;

    type Eye = HtPass;

    ghost hands = { λ dict. writer_hand F.pre F.post dict.table };

    ghost eyes = { λ dict. pass_eye dict.table };

    ghost readers = { λ dict. readers_of dict.table.origin };

    ghost numbered = { λ dict pass ready. ready.reader };

    fn update<R: Wait>(
        &self,
        rt: &R,
        _alloc: Global,
        hand: &mut HtWriter<F>,
        call: &Update<Key>,
    ) -> Result<Reply, AllocError> {
        let reply = self.make_surely(rt, hand, call);
        self.table.mark(hand);
        Ok(reply)
    }

    fn query<R: Wait>(
        &self,
        rt: &R,
        _alloc: Global,
        eye: &mut HtPass,
        ask: &Key,
    ) -> Result<Option<u64>, AllocError> {
        self.table.begin(eye);
        let found = self.table.get(rt, eye, *ask);
        self.table.end(eye);
        self.table.note(eye);
        Ok(found)
    }

    fn reached<R: Wait>(&self, _rt: &R, eye: &mut HtPass, n: u64) -> Result<(), u64> {
        self.table.reached(eye, n)
    }

    fn answered(&self, hand: &mut HtWriter<F>, reader: u64) -> u64 {
        self.table.answered(hand, reader)
    }
}
