//! An array with a domain of its own.
ghost use Rattle.std.specs.Prelude.{true, ◌≡◌, ◌≢◌, ℕ, ◌+◌, ◌-◌, ◌<◌, ◌≤◌, ◌^◌, List, [], ◌∷◌, ◌++◌, length, vec_len, vec_capacity, IfOk, IfErr, IsOk, MatchResult, All};
ghost use Rattle.ck_run.specs.declared.account.Step.TheVariants.{Load, Store};
ghost use Rattle.ck_run.specs.Run.{call, entry};
ghost use Rattle.ck_run.specs.Tokens.{table, adding};
ghost use Rattle.ck_run.specs.Ends.{fresh};
ghost use Rattle.ck_epoch.specs.State.{depth, active_word, barrier as bars, end as ends, records_of, state as epochs};
ghost use Rattle.ck_epoch.specs.Rounds.{Rounds};
ghost use Rattle.ck_epoch.specs.Calls.{rec_of, Begins};
ghost use Rattle.ck_epoch.specs.Closing.{AreFreshPasses};
ghost use Rattle.ck_epoch.specs.Lists.{Answers};
ghost use Rattle.ck_signal.specs.Signals.{readers};
ghost use Rattle.ck_signal.specs.Words.{marks, reaches, notes, asks};
ghost use Rattle.ck_signal.specs.Told.{applied_word_of, answered_word_of};
ghost use Rattle.ck_history.specs.declared.edit.TheConstants.{MOST_MEMBERS};
ghost use Rattle.ck_history.specs.declared.edit.Edit.TheVariants.{Add, Drop, Commit};
ghost use Rattle.ck_history.specs.declared.edit.EditReply.TheVariants.{Committed};
ghost use Rattle.ck_history.specs.declared.event.ReaderEvent.TheVariants.{Answered, Reached};
ghost use Rattle.ck_history.specs.declared.event.WriterEvent.TheVariants.{Updated, Told};
ghost use Rattle.ck_history.specs.Lists.{list_step, empty_lists, lists_after_from};
ghost use Rattle.ck_arraylaw.specs.Client.{array as array_client, is_region, home_of, answers_of};
ghost use Rattle.ck_arraylaw.specs.Host.{base_word};
ghost use Rattle.ck_arraylaw.specs.Known.{knows};
ghost use Rattle.ck_arraylaw.specs.Reached.{with_signals};
ghost use Rattle.ck_array.specs.Closed.{IsClosedArray};
ghost use Rattle.ck_array.specs.Edited.{IsBusy, MakesCommit};
ghost use Rattle.ck_array.specs.Ends.{edits_by, IsPassReady};
ghost use Rattle.ck_array.specs.Events.{pass_events, hand_events};
ghost use Rattle.ck_array.specs.Reads.{ReadsAll};
ghost use Rattle.ck_array.specs.Writes.{opens_of};

use crate::editing::{commit, edit};
use crate::part;
use crate::state::ArrayState;
use ck_arena::give_all;
use ck_arraylaw::ArrayClient;
use ck_epoch::{Closed, Domain, Item, Pass, Writer};
use ck_history::{Busy, Edit, EditReply};
use ck_signal::Signals;
use ck_words::Back;
use std::alloc::{AllocError, Global};
use std::marker::Model;
use std::sync::Wait;

/// A reader's token.
pub type ArrayPass = Pass<Signals<ArrayClient>>;

/// The writer's token, with its own state of the array.
#[derive(Drop)]
pub struct ArrayWriter<F> {
    pub(crate) writer: Writer<Signals<ArrayClient>, F>,
    pub(crate) state: ArrayState,
}

impl<F> Model for ArrayWriter<F> {
    ghost use Rattle.ck_run.specs.Tokens.{origin};
    ghost use Rattle.std.specs.Coded.{codes};
    ghost use Rattle.ck_array.specs.contracts.state.ArrayState as kept;
    ghost use Rattle.ck_array.specs.Ends.{ArrayWriter as WriterOf, IsWriterReady};

    ghost Value = { WriterOf F };

    ghost coded = { Prim.hlevel (codes, kept.the_row.coded) };

    ghost view = { λ w. record { writer = w.writer; state = w.state } };

    ghost invariant = { λ w. IsWriterReady (origin w.writer.token) w.writer w.state };
}

/// An array that threads share. Contracts see the table of its words.
#[derive(Drop)]
pub struct Array {
    pub(crate) domain: Domain<Signals<ArrayClient>>,
}

impl Model for Array {
    ghost use Rattle.std.specs.Prelude.{◌≡◌};
    ghost use Rattle.ck_run.specs.Tokens.{Table};
    ghost use Rattle.ck_epoch.specs.declared.about.About.{About as AboutOf};
    ghost use Rattle.ck_epoch.specs.State.{records_of};
    ghost use Rattle.ck_signal.specs.declared.signals.Signals.{Signals as SignalsOf};
    ghost use Rattle.ck_signal.specs.Signals.{readers};
    ghost use Rattle.ck_arraylaw.specs.declared.client.ArrayClient.{ArrayClient as ClientOf};

    ghost Value = { Table (AboutOf (SignalsOf ClientOf)) };

    ghost view = { λ a. a.domain };

    ghost invariant = { λ a. records_of a.domain.origin ≡ readers a.domain.origin };
}

/// Where a retired region goes back: to the arena.
pub fn home(item: Item) -> Back
    ensures { result ≡ home_of item }
{
    Back {
        shelf: Back::BUDDIES,
        at: item.at,
        log: item.log,
    }
}

/// How many regions can be out: the arena has so many of the shortest.
const ROOM: u64 = 4_096;

impl Array {
    /// An array whose lists have no member, its writer, and the passes of its readers, in order. The only error is want of memory.
    pub fn new<F: Fn(Item) -> Back + Drop>(
        alloc: Global,
        readers: u64,
        handler: F,
    ) -> Result<(Array, ArrayWriter<F>, Vec<ArrayPass>), AllocError>
        requires readers { (1 ≤ readers) × (readers ≤ 64) }
        requires handler { Answers (λ item. is_region item) (λ item. home_of item) (F.pre handler) (F.post handler) }
        ensures signals { IfOk result (λ r. r.0.origin.config.client.records ≡ readers) }
        ensures writer { IfOk result (λ r. (r.1.writer.token ≡ fresh r.0 0) × (hand_events r.0.origin r.1.writer.token ≡ [])) }
        ensures counted { IfOk result (λ r. (r.1.writer.calls ≡ 0) × (r.1.writer.handler ≡ handler)) }
        ensures passes { IfOk result (λ r. (vec_len r.2 ≡ readers) × AreFreshPasses r.0 1 r.2.items) }
        ensures made { IfOk result (λ r. All (λ p. table p.token ≡ r.0) r.2.items) }
        ensures ready { IfOk result (λ r. All (λ p. IsPassReady r.0.origin p) r.2.items) }
        ensures events { IfOk result (λ r. All (λ p. pass_events r.0.origin p.token ≡ []) r.2.items) }
    {
        let state = ArrayState::new(alloc)?;
        let signals = Signals::new(ArrayClient, readers);
        let (domain, writer, passes) = Domain::new(alloc, signals, readers, ROOM, handler)?;
        Ok((Array { domain }, ArrayWriter { writer, state }, passes))
    }

    /// The domain that the array stands in.
    pub fn domain(&self) -> &Domain<Signals<ArrayClient>>
        ensures { result.now ≡ self.now }
    {
        &self.domain
    }

    /// Opens a section of the pass, or nests one, as `ck_epoch_begin`.
    pub fn begin(&self, pass: &mut ArrayPass)
        requires table { table pass.old.token ≡ self.now }
        requires ready { IsPassReady self.now.origin pass.old }
        requires calls { pass.old.calls < 2 ^ 40 }
        requires depth { depth pass.old.token < 2 ^ 32 }
        ensures table { table pass.new.token ≡ table pass.old.token }
        ensures steps { Begins pass.old.token pass.new.token }
        ensures answers { answers_of (knows with_signals self.now.origin pass.new.token) ≡ answers_of (knows with_signals self.now.origin pass.old.token) }
        ensures events { pass_events self.now.origin pass.new.token ≡ pass_events self.now.origin pass.old.token }
        ensures ready { IsPassReady self.now.origin pass.new }
        ensures calls { pass.new.calls ≡ pass.old.calls + 1 }
        ensures depth { depth pass.new.token ≡ depth pass.old.token + 1 }
    {
        self.domain.begin(pass)
    }

    /// Ends the section that was opened last, as `ck_epoch_end`.
    pub fn end(&self, pass: &mut ArrayPass)
        requires table { table pass.old.token ≡ self.now }
        requires ready { IsPassReady self.now.origin pass.old }
        requires calls { pass.old.calls < 2 ^ 40 }
        requires depth { 0 < depth pass.old.token }
        ensures step { pass.new ≡ record pass.old {
          token = adding pass.old.token (call ends [] (Store (active_word (rec_of pass.old.token)) (depth pass.old.token - 1) ∷ []));
          calls = pass.old.calls + 1;
        } }
        ensures answers { answers_of (knows with_signals self.now.origin pass.new.token) ≡ answers_of (knows with_signals self.now.origin pass.old.token) }
        ensures events { pass_events self.now.origin pass.new.token ≡ pass_events self.now.origin pass.old.token }
        ensures ready { IsPassReady self.now.origin pass.new }
        ensures depth { depth pass.new.token ≡ depth pass.old.token - 1 }
    {
        self.domain.end(pass)
    }

    /// Fills `out` with the list that was committed when this call loaded the root, and returns its length, as a loop over `ck_array` with
    /// `CK_ARRAY_FOREACH`. It takes no memory.
    pub fn all(&self, pass: &mut ArrayPass, out: &mut Vec<u64>) -> u64
        requires table { table pass.old.token ≡ self.now }
        requires section { 0 < depth pass.old.token }
        requires ready { IsPassReady self.now.origin pass.old }
        requires calls { pass.old.calls < 2 ^ 40 }
        requires empty { out.old.items ≡ [] }
        requires room { MOST_MEMBERS ≤ vec_capacity out.old }
        ensures table { table pass.new.token ≡ table pass.old.token }
        ensures steps { (root : ℕ) × (count : ℕ) × ReadsAll with_signals self.now.origin pass.old.token pass.new.token root count out.new.items }
        ensures answers { answers_of (knows with_signals self.now.origin pass.new.token) ≡ answers_of (knows with_signals self.now.origin pass.old.token) ++ out.new.items ∷ [] }
        ensures events { pass_events self.now.origin pass.new.token ≡ pass_events self.now.origin pass.old.token ++ Answered tt out.new.items ∷ [] }
        ensures length { result ≡ length out.new.items }
        ensures ready { IsPassReady self.now.origin pass.new }
        ensures calls { pass.new.calls ≡ pass.old.calls + 1 }
        ensures depth { depth pass.new.token ≡ depth pass.old.token }
    {
        let count = part::all(&self.domain, pass, out);
        let answers = pass.tally();
        pass.set_tally(answers + 1);
        count
    }

    /// Whether the writer has marked at least `n` edits: Ok if and only if the number that this call loads is at least `n`. The later answers
    /// of the pass have places of at least that number. Err carries it.
    pub fn reached(&self, pass: &mut ArrayPass, n: u64) -> Result<(), u64>
        requires table { table pass.old.token ≡ self.now }
        requires ready { IsPassReady self.now.origin pass.old }
        ensures step { MatchResult result
            (λ _. (found : ℕ) × (n ≤ found) × (pass.new ≡ record pass.old { token = adding pass.old.token (reaches (applied_word_of array_client self.now.origin) n found ∷ []) }))
            (λ found. (found < n) × (pass.new ≡ record pass.old { token = adding pass.old.token (reaches (applied_word_of array_client self.now.origin) n found ∷ []) })) }
        ensures answers { answers_of (knows with_signals self.now.origin pass.new.token) ≡ answers_of (knows with_signals self.now.origin pass.old.token) }
        ensures events { pass_events self.now.origin pass.new.token ≡ pass_events self.now.origin pass.old.token ++ Reached n result ∷ [] }
        ensures ready { IsPassReady self.now.origin pass.new }
        ensures depth { depth pass.new.token ≡ depth pass.old.token }
    {
        ck_signal::reached(&self.domain, pass, n)
    }

    /// Tells the writer how many answers the pass has given.
    pub fn note(&self, pass: &mut ArrayPass)
        requires table { table pass.old.token ≡ self.now }
        requires ready { IsPassReady self.now.origin pass.old }
        ensures step { pass.new ≡ record pass.old { token = adding pass.old.token (notes (answered_word_of array_client self.now.origin (rec_of pass.old.token)) (length (answers_of (knows with_signals self.now.origin pass.old.token))) ∷ []) } }
        ensures answers { answers_of (knows with_signals self.now.origin pass.new.token) ≡ answers_of (knows with_signals self.now.origin pass.old.token) }
        ensures events { pass_events self.now.origin pass.new.token ≡ pass_events self.now.origin pass.old.token }
        ensures ready { IsPassReady self.now.origin pass.new }
        ensures depth { depth pass.new.token ≡ depth pass.old.token }
    {
        ck_signal::note(&self.domain, pass)
    }

    /// Appends a member to the pending list, as `ck_array_put`, but a member may stand there already. Full where it has as many as it may. Readers
    /// don't see it before it is committed.
    pub fn add<F>(&self, w: &mut ArrayWriter<F>, v: u64) -> EditReply
        requires table { table w.old.writer.token ≡ self.now }
        requires calls { w.old.writer.calls < 2 ^ 40 }
        ensures same { w.new.writer ≡ record w.old.writer { token = w.new.writer.token; calls = w.old.writer.calls + 1; tally = w.old.writer.tally + 1 } }
        ensures table { table w.new.writer.token ≡ table w.old.writer.token }
        ensures reply { result ≡ (list_step (lists_after_from empty_lists (edits_by self.now.origin w.old.writer.token)) (Add v)).1 }
        ensures log { edits_by self.now.origin w.new.writer.token ≡ edits_by self.now.origin w.old.writer.token ++ Add v ∷ [] }
        ensures steps { (root : ℕ) × (w.new.writer.token ≡ adding w.old.writer.token (entry (opens_of (Add v)) (Load (base_word with_signals self.now.origin) root) ∷ [])) }
        ensures events { hand_events self.now.origin w.new.writer.token ≡ hand_events self.now.origin w.old.writer.token ++ Updated (Add v) result ∷ [] }
        ensures pending { (epochs w.new.writer.token).pending ≡ (epochs w.old.writer.token).pending }
    {
        self.change(w, Edit::Add(v))
    }

    /// Takes the first such member out of the pending list and puts the last member into its place, as `ck_array_remove`. Missing where there is
    /// none. Readers don't see it before the list is committed.
    pub fn drop_one<F>(&self, w: &mut ArrayWriter<F>, v: u64) -> EditReply
        requires table { table w.old.writer.token ≡ self.now }
        requires calls { w.old.writer.calls < 2 ^ 40 }
        ensures same { w.new.writer ≡ record w.old.writer { token = w.new.writer.token; calls = w.old.writer.calls + 1; tally = w.old.writer.tally + 1 } }
        ensures table { table w.new.writer.token ≡ table w.old.writer.token }
        ensures reply { result ≡ (list_step (lists_after_from empty_lists (edits_by self.now.origin w.old.writer.token)) (Drop v)).1 }
        ensures log { edits_by self.now.origin w.new.writer.token ≡ edits_by self.now.origin w.old.writer.token ++ Drop v ∷ [] }
        ensures steps { (root : ℕ) × (w.new.writer.token ≡ adding w.old.writer.token (entry (opens_of (Drop v)) (Load (base_word with_signals self.now.origin) root) ∷ [])) }
        ensures events { hand_events self.now.origin w.new.writer.token ≡ hand_events self.now.origin w.old.writer.token ++ Updated (Drop v) result ∷ [] }
        ensures pending { (epochs w.new.writer.token).pending ≡ (epochs w.old.writer.token).pending }
    {
        self.change(w, Edit::Drop(v))
    }

    // An edit of the pending list.
    fn change<F>(&self, w: &mut ArrayWriter<F>, e: Edit) -> EditReply
        requires table { table w.old.writer.token ≡ self.now }
        requires calls { w.old.writer.calls < 2 ^ 40 }
        requires pending { e ≢ Commit }
        ensures same { w.new.writer ≡ record w.old.writer { token = w.new.writer.token; calls = w.old.writer.calls + 1; tally = w.old.writer.tally + 1 } }
        ensures table { table w.new.writer.token ≡ table w.old.writer.token }
        ensures reply { result ≡ (list_step (lists_after_from empty_lists (edits_by self.now.origin w.old.writer.token)) e).1 }
        ensures log { edits_by self.now.origin w.new.writer.token ≡ edits_by self.now.origin w.old.writer.token ++ e ∷ [] }
        ensures steps { (root : ℕ) × (w.new.writer.token ≡ adding w.old.writer.token (entry (opens_of e) (Load (base_word with_signals self.now.origin) root) ∷ [])) }
        ensures events { hand_events self.now.origin w.new.writer.token ≡ hand_events self.now.origin w.old.writer.token ++ Updated e result ∷ [] }
        ensures pending { (epochs w.new.writer.token).pending ≡ (epochs w.old.writer.token).pending }
    {
        edit(&self.domain, &mut w.writer, &mut w.state, e)
    }

    /// Makes the pending list the committed one, as `ck_array_commit`, but always in another region. Busy where no region of the length that
    /// it takes was free even after one poll, and nothing changed then.
    pub fn commit<F: Fn(Item) -> Back>(&self, w: &mut ArrayWriter<F>) -> Result<EditReply, Busy>
        requires table { table w.old.writer.token ≡ self.now }
        requires calls { w.old.writer.calls < 2 ^ 40 - 8 }
        requires handler { Answers (λ item. is_region item) (λ item. home_of item) (F.pre w.old.writer.handler) (F.post w.old.writer.handler) }
        ensures same { w.new.writer ≡ record w.old.writer { token = w.new.writer.token; calls = w.new.writer.calls; tally = w.new.writer.tally } }
        ensures tally { MatchResult result (λ r. w.new.writer.tally ≡ w.old.writer.tally + 1) (λ b. w.new.writer.tally ≡ w.old.writer.tally) }
        ensures calls { w.new.writer.calls ≤ w.old.writer.calls + 3 }
        ensures table { table w.new.writer.token ≡ table w.old.writer.token }
        ensures reply { IfOk result (λ r. r ≡ Committed) }
        ensures log { MatchResult result (λ r. edits_by self.now.origin w.new.writer.token ≡ edits_by self.now.origin w.old.writer.token ++ Commit ∷ []) (λ b. edits_by self.now.origin w.new.writer.token ≡ edits_by self.now.origin w.old.writer.token) }
        ensures events { MatchResult result (λ r. hand_events self.now.origin w.new.writer.token ≡ hand_events self.now.origin w.old.writer.token ++ Updated Commit r ∷ []) (λ b. hand_events self.now.origin w.new.writer.token ≡ hand_events self.now.origin w.old.writer.token) }
        ensures steps { IfOk result (λ r. MakesCommit self.now.origin w.old.state.region w.new.state.region w.old.writer.token w.new.writer.token) }
        ensures busy { IfErr result (λ b. IsBusy self.now.origin w.old.writer w.old.state b w.new.writer w.new.state) }
        ensures ok { (epochs w.old.writer.token).pending ≡ [] → IsOk result }
        ensures pending { length (epochs w.new.writer.token).pending ≤ length (epochs w.old.writer.token).pending + 1 }
    {
        commit(&self.domain, &mut w.writer, &mut w.state)
    }

    /// Waits until each section that is open now has ended, as `ck_epoch_barrier`, and gives all that was retired back to the arena. Answers how
    /// many regions that were.
    pub fn barrier<F: Fn(Item) -> Back, R: Wait>(&self, rt: &R, w: &mut ArrayWriter<F>) -> u64
        requires table { table w.old.writer.token ≡ self.now }
        requires calls { w.old.writer.calls < 2 ^ 40 }
        requires handler { Answers (λ item. is_region item) (λ item. home_of item) (F.pre w.old.writer.handler) (F.post w.old.writer.handler) }
        ensures same { w.new.writer ≡ record w.old.writer { token = w.new.writer.token; calls = w.old.writer.calls + 1 } }
        ensures table { table w.new.writer.token ≡ table w.old.writer.token }
        ensures steps { Rounds (records_of self.now.origin) bars (epochs w.old.writer.token).epoch w.old.writer.token w.new.writer.token }
        ensures log { edits_by self.now.origin w.new.writer.token ≡ edits_by self.now.origin w.old.writer.token }
        ensures events { hand_events self.now.origin w.new.writer.token ≡ hand_events self.now.origin w.old.writer.token }
        ensures pending { (epochs w.new.writer.token).pending ≡ [] }
        ensures count { result ≡ length (epochs w.old.writer.token).pending }
    {
        give_all::<_, ArrayState, _, _>(&self.domain, rt, &mut w.writer, &mut w.state.arena)
    }

    /// The committed list. The only error is want of memory.
    pub fn entries<F>(&self, alloc: Global, w: &ArrayWriter<F>) -> Result<Vec<u64>, AllocError>
        requires table { table w.now.writer.token ≡ self.now }
        ensures { IfOk result (λ r. r.items ≡ (lists_after_from empty_lists (edits_by self.now.origin w.now.writer.token)).committed) }
    {
        let mut members = Vec::new(alloc);
        members.extend_from_slice(w.state.lists.committed())?;
        Ok(members)
    }

    /// Tells the readers how many edits the log has.
    pub fn mark<F>(&self, w: &mut ArrayWriter<F>)
        requires table { table w.old.writer.token ≡ self.now }
        ensures step { w.new.writer ≡ record w.old.writer { token = adding w.old.writer.token (marks (applied_word_of array_client self.now.origin) (length (edits_by self.now.origin w.old.writer.token)) ∷ []) } }
        ensures log { edits_by self.now.origin w.new.writer.token ≡ edits_by self.now.origin w.old.writer.token }
        ensures events { hand_events self.now.origin w.new.writer.token ≡ hand_events self.now.origin w.old.writer.token }
    {
        ck_signal::mark(&self.domain, &mut w.writer)
    }

    /// How many answers the reader with this number, from 0, has noted. These first answers have places of at most the length of the log.
    pub fn answered<F>(&self, w: &mut ArrayWriter<F>, reader: u64) -> u64
        requires table { table w.old.writer.token ≡ self.now }
        requires reader { reader < readers self.now.origin }
        ensures step { w.new.writer ≡ record w.old.writer { token = adding w.old.writer.token (asks (answered_word_of array_client self.now.origin reader) reader result ∷ []) } }
        ensures log { edits_by self.now.origin w.new.writer.token ≡ edits_by self.now.origin w.old.writer.token }
        ensures events { hand_events self.now.origin w.new.writer.token ≡ hand_events self.now.origin w.old.writer.token ++ Told reader result ∷ [] }
    {
        ck_signal::answered(&self.domain, &mut w.writer, reader)
    }

    /// The words of the array as they were left. The writer and the passes are given back: what they did are the parts of one true run, in which
    /// the answers of each reader have places that don't fall, and bear out what `reached` and `answered` told.
    pub fn close<F: Drop>(self, w: ArrayWriter<F>, passes: Vec<ArrayPass>) -> Closed
        requires writer { table w.writer.token ≡ self }
        requires passes { All (λ p. table p.token ≡ self) passes.items }
        requires ready { All (λ p. IsPassReady self.origin p) passes.items }
        ensures closed { IsClosedArray w.writer.token passes.items result.words.items }
    {
        ck_signal::signals_law::<ArrayClient>();
        ck_arraylaw::array_law::<Signals<ArrayClient>>();
        let Array { domain } = self;
        let ArrayWriter { writer, .. } = w;
        domain.close(writer, passes)
    }
}
