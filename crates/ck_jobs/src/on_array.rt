//! The array as a dictionary that the pool runs on.
ghost use Rattle.std.specs.Prelude.{◌≡◌, ◌+◌, ◌-◌, ◌<◌, ◌≤◌, ◌^◌, [], ◌∷◌, ◌++◌, IsOk, MatchResult};
ghost use Rattle.ck_epoch.specs.State.{state as epochs};
ghost use Rattle.ck_history.specs.declared.event.WriterEvent.TheVariants.{Updated};
ghost use Rattle.ck_array.specs.Events.{hand_events};
ghost use Rattle.ck_jobs.specs.OnArray.{IsArrayWriter};

use ck_array::{Array, ArrayPass, ArrayWriter};
use ck_epoch::Item;
use ck_history::{Busy, Edit, EditReply, MOST_MEMBERS};
use ck_pool::Dict;
use ck_report::View;
use ck_script::{AskLine, Lines, UpLine};
use ck_words::Back;
use std::alloc::{AllocError, Global};
use std::marker::PhantomData;
use std::sync::Wait;

/// An array whose writer has a handler of the type `F`.
#[derive(Drop)]
pub struct OnArray<F> {
    pub array: Array,
    pub of: PhantomData<F>,
}

impl<F: Fn(Item) -> Back> OnArray<F> {
    // Makes the edit. After Busy nothing was done.
    fn make(&self, hand: &mut ArrayWriter<F>, call: &Edit) -> Result<EditReply, Busy>
        requires writer { IsArrayWriter F.pre F.post self.now.array hand.old }
        requires calls { hand.old.writer.calls < 2 ^ 40 - 8 }
        ensures writer { IsArrayWriter F.pre F.post self.now.array hand.new }
        ensures calls { hand.new.writer.calls ≤ hand.old.writer.calls + 3 }
        ensures events { MatchResult result (λ reply. hand_events self.now.array.origin hand.new.writer.token ≡ hand_events self.now.array.origin hand.old.writer.token ++ Updated call.now reply ∷ []) (λ busy. hand_events self.now.array.origin hand.new.writer.token ≡ hand_events self.now.array.origin hand.old.writer.token) }
        ensures ok { (epochs hand.old.writer.token).pending ≡ [] → IsOk result }
    {
        match *call {
            Edit::Add(member) => Ok(self.array.add(hand, member)),
            Edit::Drop(member) => Ok(self.array.drop_one(hand, member)),
            Edit::Commit => self.array.commit(hand),
        }
    }

    // Makes the edit. Where the array is busy, it does so after a barrier: nothing is pending then, so that a commit finds a free region.
    fn make_surely<R: Wait>(&self, rt: &R, hand: &mut ArrayWriter<F>, call: &Edit) -> EditReply
        requires writer { IsArrayWriter F.pre F.post self.now.array hand.old }
        requires calls { hand.old.writer.calls < 2 ^ 40 - 12 }
        ensures writer { IsArrayWriter F.pre F.post self.now.array hand.new }
        ensures calls { hand.new.writer.calls ≤ hand.old.writer.calls + 7 }
        ensures events { hand_events self.now.array.origin hand.new.writer.token ≡ hand_events self.now.array.origin hand.old.writer.token ++ Updated call.now result ∷ [] }
    {
        if let Ok(reply) = self.make(hand, call) {
            return reply;
        }
        let _regions = self.array.barrier(rt, hand);
        match self.make(hand, call) {
            Ok(reply) => reply,
            Err(_) => unreachable!(),
        }
    }
}

impl<F: Fn(Item) -> Back + Send + Sync + Drop> Dict for OnArray<F> {
    ghost use Rattle.ck_signal.specs.Signals.{readers as readers_of};
    ghost use Rattle.ck_jobs.specs.OnArray.{writer_hand, pass_eye};

    type Call = Edit;

    type Reply = EditReply;

    type Ask = ();

    type Answer = View;

    type UpFile = Lines<UpLine<Edit>>;

    type AskFile = Lines<AskLine<()>>;

    type Hand = ArrayWriter<F>;

    type Eye = ArrayPass;

    ghost hands = { λ dict. writer_hand F.pre F.post dict.array };

    ghost eyes = { λ dict. pass_eye dict.array };

    ghost readers = { λ dict. readers_of dict.array.origin };

    ghost numbered = { λ dict pass ready. ready.reader };

    fn update<R: Wait>(
        &self,
        rt: &R,
        _alloc: Global,
        hand: &mut ArrayWriter<F>,
        call: &Edit,
    ) -> Result<EditReply, AllocError> {
        let reply = self.make_surely(rt, hand, call);
        self.array.mark(hand);
        Ok(reply)
    }

    fn query<R: Wait>(
        &self,
        _rt: &R,
        alloc: Global,
        eye: &mut ArrayPass,
        _ask: &(),
    ) -> Result<View, AllocError> {
        let mut members = Vec::with_capacity(alloc, MOST_MEMBERS as usize)?;
        self.array.begin(eye);
        let _length = self.array.all(eye, &mut members);
        self.array.end(eye);
        self.array.note(eye);
        Ok(View { members })
    }

    fn reached<R: Wait>(&self, _rt: &R, eye: &mut ArrayPass, n: u64) -> Result<(), u64> {
        self.array.reached(eye, n)
    }

    fn answered(&self, hand: &mut ArrayWriter<F>, reader: u64) -> u64 {
        self.array.answered(hand, reader)
    }
}
