//! What the pool runs on.
ghost use Rattle.std.specs.Prelude.{◌≡◌, ◌+◌, ◌<◌, ◌≤◌, ◌^◌, ◌++◌, ◌∷◌, [], IfOk, OnErr};
ghost use Rattle.ck_pool.specs.Limits.{call_bound};

use ck_script::{AskLine, LineList, UpLine};
use std::alloc::{AllocError, Global};
use std::sync::Wait;

/// A dictionary with one end that updates, its hand, and several that ask, its eyes.
pub trait Dict: Sync {
    ghost use Rattle.std.specs.Prelude.{ℕ};
    ghost use Rattle.ck_history.specs.declared.event.WriterEvent.TheVariants.{Updated, Told};
    ghost use Rattle.ck_history.specs.declared.event.ReaderEvent.TheVariants.{Answered, Reached};
    ghost use Rattle.ck_pool.specs.Meaning.{HandMeaning, EyeMeaning};

    /// What a line of the update file asks for.
    type Call: Drop + Send + Sync;

    /// What an update answers.
    type Reply: Drop + Send;

    /// What a line of a query file asks for.
    type Ask: Drop + Send + Sync;

    /// What a query answers.
    type Answer: Drop + Send;

    /// The lines of an update file, however they are kept.
    type UpFile: LineList<UpLine<Self::Call>> + Drop + Sync;

    /// The lines of a query file, however they are kept.
    type AskFile: LineList<AskLine<Self::Ask>> + Drop + Sync;

    /// The end with which updates are made. There is one, and it needs no Drop: some structures take it back only where they are closed.
    type Hand: Send;

    /// An end with which one reader's queries are asked.
    type Eye: Drop + Send;

    // What contracts see of the ends that were made with this dictionary.
    ghost hands: { Self → HandMeaning Self.Hand Self.Call Self.Reply };

    ghost eyes: { Self → EyeMeaning Self.Eye Self.Ask Self.Answer };

    // The number of its readers.
    ghost readers: { Self → ℕ };

    /// Makes an update for which there is room. The only error is want of memory, and then nothing was done.
    fn update<R: Wait>(
        &self,
        rt: &R,
        alloc: Global,
        hand: &mut Self::Hand,
        call: &Self::Call,
    ) -> Result<Self::Reply, AllocError>
        requires ready { (hands self.now).ready hand.old }
        requires calls { (hands self.now).calls hand.old < call_bound }
        requires fits { (hands self.now).fits hand.old call.now }
        ensures ready { (hands self.now).ready hand.new }
        ensures calls { (hands self.now).calls hand.new ≤ (hands self.now).calls hand.old + 8 }
        ensures ok { IfOk result (λ reply. (hands self.now).done hand.new ≡ (hands self.now).done hand.old ++ Updated call.now reply ∷ []) }
        ensures err { OnErr result ((hands self.now).done hand.new ≡ (hands self.now).done hand.old) };

    /// Answers a query. The only error is want of memory, and then nothing was done.
    fn query<R: Wait>(
        &self,
        rt: &R,
        alloc: Global,
        eye: &mut Self::Eye,
        ask: &Self::Ask,
    ) -> Result<Self::Answer, AllocError>
        requires ready { (eyes self.now).ready eye.old }
        requires calls { (eyes self.now).calls eye.old < call_bound }
        ensures ready { (eyes self.now).ready eye.new }
        ensures calls { (eyes self.now).calls eye.new ≤ (eyes self.now).calls eye.old + 8 }
        ensures number { (eyes self.now).number eye.new ≡ (eyes self.now).number eye.old }
        ensures ok { IfOk result (λ answer. (eyes self.now).done eye.new ≡ (eyes self.now).done eye.old ++ Answered ask.now answer ∷ []) }
        ensures err { OnErr result ((eyes self.now).done eye.new ≡ (eyes self.now).done eye.old) };

    /// Loads how many updates readers can see. `Ok` where there are at least `n`; an `Err` tells how many.
    fn reached<R: Wait>(&self, rt: &R, eye: &mut Self::Eye, n: u64) -> Result<(), u64>
        requires ready { (eyes self.now).ready eye.old }
        ensures ready { (eyes self.now).ready eye.new }
        ensures calls { (eyes self.now).calls eye.new ≡ (eyes self.now).calls eye.old }
        ensures number { (eyes self.now).number eye.new ≡ (eyes self.now).number eye.old }
        ensures done { (eyes self.now).done eye.new ≡ (eyes self.now).done eye.old ++ Reached n result ∷ [] };

    /// Loads how many queries the reader of this number has answered, as far as its eye has told. A dictionary that doesn't know may answer 0.
    fn answered(&self, hand: &mut Self::Hand, reader: u64) -> u64
        requires ready { (hands self.now).ready hand.old }
        requires reader { reader < readers self.now }
        ensures ready { (hands self.now).ready hand.new }
        ensures calls { (hands self.now).calls hand.new ≡ (hands self.now).calls hand.old }
        ensures done { (hands self.now).done hand.new ≡ (hands self.now).done hand.old ++ Told reader result ∷ [] };

    // The number of a ready eye is that of one of its readers. So a job whose files have an eye each names in its `hold` lines only readers of which
    // `answered` may be asked.
    ghost numbered: { (dict : Self) (eye : Self.Eye) → (eyes dict).ready eye → (eyes dict).number eye < readers dict };
}
