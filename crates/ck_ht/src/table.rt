//! A table with a domain of its own.
ghost use Rattle.std.specs.Prelude.{true, ◌≡◌, ◌≢◌, ℕ, ◌+◌, ◌-◌, ◌<◌, ◌≤◌, ◌^◌, Option, List, [], ◌∷◌, ◌++◌, length, vec_len, IfOk, IfErr, IsOk, MatchResult, All};
ghost use Rattle.std.specs.Ordering.{nat_cmp};
ghost use Rattle.ck_run.specs.declared.account.Step.{Step};
ghost use Rattle.ck_run.specs.declared.account.Step.TheVariants.{Store};
ghost use Rattle.ck_run.specs.Run.{call};
ghost use Rattle.ck_run.specs.Tokens.{table, adding};
ghost use Rattle.ck_run.specs.Ends.{fresh};
ghost use Rattle.ck_words.specs.Buddies.{free_words};
ghost use Rattle.ck_epoch.specs.State.{depth, active_word, barrier as bars, end as ends, records_of, state as epochs};
ghost use Rattle.ck_epoch.specs.Rounds.{Rounds};
ghost use Rattle.ck_epoch.specs.Calls.{rec_of, Begins};
ghost use Rattle.ck_epoch.specs.Closing.{AreFreshPasses};
ghost use Rattle.ck_epoch.specs.Lists.{Answers};
ghost use Rattle.ck_signal.specs.Signals.{readers};
ghost use Rattle.ck_signal.specs.Words.{marks, reaches, notes, asks};
ghost use Rattle.ck_signal.specs.Told.{applied_word_of, answered_word_of};
ghost use Rattle.ck_history.specs.declared.event.ReaderEvent.TheVariants.{Answered, Reached};
ghost use Rattle.ck_history.specs.Map.{step};
ghost use Rattle.ck_history.specs.declared.event.WriterEvent.TheVariants.{Updated, Told};
ghost use Rattle.ck_history.specs.declared.log.Look.TheVariants.{Again};
ghost use Rattle.ck_history.specs.declared.update.Update.TheVariants.{Set, Put, Del, Tidy};
ghost use Rattle.ck_history.specs.declared.update.Reply.TheVariants.{Tidied};
ghost use Rattle.ck_htlaw.specs.Actions.{most, plan_now};
ghost use Rattle.ck_htlaw.specs.Calls.{remove as removing};
ghost use Rattle.ck_htlaw.specs.Client.{table as table_client, is_region, home_of};
ghost use Rattle.ck_htlaw.specs.Host.{lies};
ghost use Rattle.ck_htlaw.specs.Known.{knows};
ghost use Rattle.ck_htlaw.specs.Law.{retries_of};
ghost use Rattle.ck_htlaw.specs.Layout.{counters_of, log_of, table_words};
ghost use Rattle.ck_htlaw.specs.Linearized.{map_after};
ghost use Rattle.ck_htlaw.specs.Reached.{with_signals};
ghost use Rattle.ck_htlaw.specs.Table.{WriterState};
ghost use Rattle.ck_htread.specs.Answered.{HasAnswered, AnswersAlone};
ghost use Rattle.ck_htread.specs.Reading.{Looks, look_result, answered_by, retries_by, totals_of};
ghost use Rattle.ck_htwrite.specs.Updates.{RemoveSteps};
ghost use Rattle.ck_htwrite.specs.Writes.{WriterIs, opened};
ghost use Rattle.ck_ht.specs.Closed.{IsClosedTable};
ghost use Rattle.ck_ht.specs.Ends.{IsPassReady};
ghost use Rattle.ck_events.specs.Events.{answer_events};
ghost use Rattle.ck_ht.specs.Events.{pass_events, hand_events};
ghost use Rattle.ck_ht.specs.Getting.{Gets};
ghost use Rattle.ck_ht.specs.Room.{HasRoomFor, IsRoomFor};
ghost use Rattle.ck_ht.specs.Updating.{MakesUpdate, MayRebuild, IsBusy, IsKeyed};

use crate::laws::settled_law;
use crate::updating::apply;
use ck_arena::{Pieces, give_all};
use ck_epoch::{Closed, Domain, Item, Pass, Writer};
use ck_history::{Busy, Key, Look, Reply, Update};
use ck_htlaw::HtClient;
use ck_htwrite::{HtState, counter_count};
use ck_signal::Signals;
use ck_words::Back;
use crossbeam_utils::Backoff;
use std::alloc::{AllocError, Global};
use std::marker::Model;
use std::sync::Wait;

/// A reader's token.
pub type HtPass = Pass<Signals<HtClient>>;

/// The writer's token, with its own lists of the table.
#[derive(Drop)]
pub struct HtWriter<F> {
    pub(crate) writer: Writer<Signals<HtClient>, F>,
    pub(crate) state: HtState,
}

impl<F> Model for HtWriter<F> {
    ghost use Rattle.ck_run.specs.Tokens.{origin};
    ghost use Rattle.std.specs.Coded.{codes};
    ghost use Rattle.ck_htwrite.specs.contracts.state.HtState as lists;
    ghost use Rattle.ck_ht.specs.Ends.{HtWriter as WriterOf, IsWriterReady};

    ghost Value = { WriterOf F };

    ghost coded = { Prim.hlevel (codes, lists.the_row.coded) };

    ghost view = { λ w. record { writer = w.writer; state = w.state } };

    ghost invariant = { λ w. IsWriterReady (origin w.writer.token) w.writer w.state };
}

/// A hash table that threads share. Contracts see the table of its words.
#[derive(Drop)]
pub struct Ht {
    pub(crate) domain: Domain<Signals<HtClient>>,
}

impl Model for Ht {
    ghost use Rattle.std.specs.Prelude.{◌≡◌};
    ghost use Rattle.ck_run.specs.Tokens.{Table};
    ghost use Rattle.ck_epoch.specs.declared.about.About.{About as AboutOf};
    ghost use Rattle.ck_epoch.specs.State.{records_of};
    ghost use Rattle.ck_signal.specs.declared.signals.Signals.{Signals as SignalsOf};
    ghost use Rattle.ck_signal.specs.Signals.{readers};
    ghost use Rattle.ck_htlaw.specs.declared.client.HtClient.{HtClient as ClientOf};

    ghost Value = { Table (AboutOf (SignalsOf ClientOf)) };

    ghost view = { λ h. h.domain };

    ghost invariant = { λ h. records_of h.domain.origin ≡ readers h.domain.origin };
}

/// Where a retired piece goes back: to the arena.
pub fn home(item: Item) -> Back
    ensures { result ≡ home_of item }
{
    Back {
        shelf: 0,
        at: item.at,
        log: item.log,
    }
}

/// The arena has 2^23 words, which is room for a map of the most pairs.
const ARENA_LOG: u64 = 23;

/// The logarithm of the slots at opening, and of the most slots.
const OPENING_LOG: u64 = 3;

const LARGEST_LOG: u64 = 19;

// The logarithm of the words of four regions with the fewest slots that are at least twice as many as the keys.
fn room_log(keys: u64) -> u64
    requires { keys ≤ 262144 }
    ensures room { IsRoomFor keys result }
    ensures few { result ≤ 23 }
{
    for c in OPENING_LOG..LARGEST_LOG {
        if 2 * keys <= 1 << c {
            return c + 4;
        }
    }
    LARGEST_LOG + 4
}

impl Pieces<Signals<HtClient>> for Ht {
    ghost use Rattle.ck_htlaw.specs.Layout.{IsTableItem};
    ghost use Rattle.ck_htlaw.specs.Reached.{with_signals};
    ghost use Rattle.ck_htwrite.specs.Writes.{counters_in};

    ghost place = { λ o. 0 };

    ghost is_item = { λ o. IsTableItem (counters_in with_signals o) 0 };
}

impl Ht {
    /// A table whose map is empty, its writer, and the passes of its readers, in order. The only error is want of memory.
    pub fn new<F: Fn(Item) -> Back + Drop>(
        alloc: Global,
        seed: u64,
        readers: u64,
        handler: F,
    ) -> Result<(Ht, HtWriter<F>, Vec<HtPass>), AllocError>
        requires readers { (1 ≤ readers) × (readers ≤ 64) }
        requires handler { Answers (λ item. true) (λ item. home_of item) (F.pre handler) (F.post handler) }
        ensures client { IfOk result (λ r. r.0.origin.config.client.client ≡ record { seed = seed; arena_log = 23 }) }
        ensures signals { IfOk result (λ r. r.0.origin.config.client.records ≡ readers) }
        ensures writer { IfOk result (λ r. (r.1.writer.token ≡ fresh r.0 0) × (hand_events r.0.origin r.1.writer.token ≡ [])) }
        ensures counted { IfOk result (λ r. (r.1.writer.calls ≡ 0) × (r.1.writer.handler ≡ handler)) }
        ensures passes { IfOk result (λ r. (vec_len r.2 ≡ readers) × AreFreshPasses r.0 1 r.2.items) }
        ensures made { IfOk result (λ r. All (λ p. table p.token ≡ r.0) r.2.items) }
        ensures ready { IfOk result (λ r. All (λ p. IsPassReady r.0.origin p) r.2.items) }
        ensures events { IfOk result (λ r. All (λ p. pass_events r.0.origin p.token ≡ []) r.2.items) }
    {
        let client = HtClient {
            seed,
            arena_log: ARENA_LOG,
        };
        Ht::open(alloc, client, readers, handler)
    }

    /// The same with a shorter arena, of four regions of the fewest slots, from 8 on, that are at least twice `keys`: a small table takes
    /// little memory, which is written twice when it is made. `set` and `put` ask that the map comes to no more pairs than the arena has room
    /// for, which is at least `keys`.
    pub fn with_room<F: Fn(Item) -> Back + Drop>(
        alloc: Global,
        seed: u64,
        keys: u64,
        readers: u64,
        handler: F,
    ) -> Result<(Ht, HtWriter<F>, Vec<HtPass>), AllocError>
        requires keys { keys ≤ 262144 }
        requires readers { (1 ≤ readers) × (readers ≤ 64) }
        requires handler { Answers (λ item. true) (λ item. home_of item) (F.pre handler) (F.post handler) }
        ensures client { (log : ℕ) × IsRoomFor keys log × IfOk result (λ r. r.0.origin.config.client.client ≡ record { seed = seed; arena_log = log }) }
        ensures signals { IfOk result (λ r. r.0.origin.config.client.records ≡ readers) }
        ensures room { IfOk result (λ r. HasRoomFor r.0.origin.config.client.client.arena_log keys) }
        ensures writer { IfOk result (λ r. (r.1.writer.token ≡ fresh r.0 0) × (hand_events r.0.origin r.1.writer.token ≡ [])) }
        ensures counted { IfOk result (λ r. (r.1.writer.calls ≡ 0) × (r.1.writer.handler ≡ handler)) }
        ensures passes { IfOk result (λ r. (vec_len r.2 ≡ readers) × AreFreshPasses r.0 1 r.2.items) }
        ensures made { IfOk result (λ r. All (λ p. table p.token ≡ r.0) r.2.items) }
        ensures ready { IfOk result (λ r. All (λ p. IsPassReady r.0.origin p) r.2.items) }
        ensures events { IfOk result (λ r. All (λ p. pass_events r.0.origin p.token ≡ []) r.2.items) }
    {
        let client = HtClient {
            seed,
            arena_log: room_log(keys),
        };
        Ht::open(alloc, client, readers, handler)
    }

    // A table of this client.
    fn open<F: Fn(Item) -> Back + Drop>(
        alloc: Global,
        client: HtClient,
        readers: u64,
        handler: F,
    ) -> Result<(Ht, HtWriter<F>, Vec<HtPass>), AllocError>
        requires least { 6 ≤ client.arena_log }
        requires most { client.arena_log ≤ 23 }
        requires readers { (1 ≤ readers) × (readers ≤ 64) }
        requires handler { Answers (λ item. is_region client item) (λ item. home_of item) (F.pre handler) (F.post handler) }
        ensures client { IfOk result (λ r. r.0.origin.config.client.client ≡ client) }
        ensures signals { IfOk result (λ r. r.0.origin.config.client.records ≡ readers) }
        ensures writer { IfOk result (λ r. (r.1.writer.token ≡ fresh r.0 0) × (hand_events r.0.origin r.1.writer.token ≡ [])) }
        ensures counted { IfOk result (λ r. (r.1.writer.calls ≡ 0) × (r.1.writer.handler ≡ handler)) }
        ensures passes { IfOk result (λ r. (vec_len r.2 ≡ readers) × AreFreshPasses r.0 1 r.2.items) }
        ensures made { IfOk result (λ r. All (λ p. table p.token ≡ r.0) r.2.items) }
        ensures ready { IfOk result (λ r. All (λ p. IsPassReady r.0.origin p) r.2.items) }
        ensures events { IfOk result (λ r. All (λ p. pass_events r.0.origin p.token ≡ []) r.2.items) }
    {
        let state = HtState::new(alloc, &client)?;
        let room = counter_count(&client);
        let signals = Signals::new(client, readers);
        let (domain, writer, passes) = Domain::new(alloc, signals, readers, room, handler)?;
        Ok((Ht { domain }, HtWriter { writer, state }, passes))
    }

    /// The domain that the table stands in.
    pub fn domain(&self) -> &Domain<Signals<HtClient>>
        ensures { result.now ≡ self.now }
    {
        &self.domain
    }

    /// Opens a section of the pass, or nests one, as `ck_epoch_begin`.
    pub fn begin(&self, pass: &mut HtPass)
        requires table { table pass.old.token ≡ self.now }
        requires ready { IsPassReady self.now.origin pass.old }
        requires calls { pass.old.calls < 2 ^ 40 }
        requires depth { depth pass.old.token < 2 ^ 32 }
        ensures table { table pass.new.token ≡ table pass.old.token }
        ensures steps { Begins pass.old.token pass.new.token }
        ensures totals { totals_of (knows with_signals self.now.origin pass.new.token) ≡ totals_of (knows with_signals self.now.origin pass.old.token) }
        ensures events { pass_events self.now.origin pass.new.token ≡ pass_events self.now.origin pass.old.token }
        ensures ready { IsPassReady self.now.origin pass.new }
        ensures calls { pass.new.calls ≡ pass.old.calls + 1 }
        ensures depth { depth pass.new.token ≡ depth pass.old.token + 1 }
    {
        self.domain.begin(pass)
    }

    /// Ends the section that was opened last, as `ck_epoch_end`.
    pub fn end(&self, pass: &mut HtPass)
        requires table { table pass.old.token ≡ self.now }
        requires ready { IsPassReady self.now.origin pass.old }
        requires calls { pass.old.calls < 2 ^ 40 }
        requires depth { 0 < depth pass.old.token }
        ensures step { pass.new ≡ record pass.old {
          token = adding pass.old.token (call ends [] (Store (active_word (rec_of pass.old.token)) (depth pass.old.token - 1) ∷ []));
          calls = pass.old.calls + 1;
        } }
        ensures totals { totals_of (knows with_signals self.now.origin pass.new.token) ≡ totals_of (knows with_signals self.now.origin pass.old.token) }
        ensures events { pass_events self.now.origin pass.new.token ≡ pass_events self.now.origin pass.old.token }
        ensures ready { IsPassReady self.now.origin pass.new }
        ensures depth { depth pass.new.token ≡ depth pass.old.token - 1 }
    {
        self.domain.end(pass)
    }

    /// The value of the key, or that it is absent, or that the look is to be made again, as `ck_ht_get_spmc`, but without its loop. An
    /// answer is that of the map at a moment between the look's load of the root and its last load. Where no other token steps between these
    /// two it always answers, and what the map gives then.
    pub fn look(&self, pass: &mut HtPass, key: Key) -> Look
        requires table { table pass.old.token ≡ self.now }
        requires section { 0 < depth pass.old.token }
        requires ready { IsPassReady self.now.origin pass.old }
        requires calls { pass.old.calls < 2 ^ 40 }
        ensures table { table pass.new.token ≡ table pass.old.token }
        ensures steps { Looks with_signals self.now.origin key pass.old.token result pass.new.token }
        ensures looks { (knows with_signals self.now.origin pass.new.token).looks ≡ (knows with_signals self.now.origin pass.old.token).looks ++ answered_by key result }
        ensures events { pass_events self.now.origin pass.new.token ≡ pass_events self.now.origin pass.old.token ++ answer_events (answered_by key result) }
        ensures placed { (x : Option ℕ) → result ≡ look_result x → HasAnswered with_signals self.now.origin pass.new.token (length (knows with_signals self.now.origin pass.old.token).looks) key x }
        ensures retries { retries_of (knows with_signals self.now.origin pass.new.token).local ≡ retries_of (knows with_signals self.now.origin pass.old.token).local + retries_by result }
        ensures again { (before after : ℕ) → result ≡ Again before after → before < after }
        ensures alone { AnswersAlone with_signals self.now.origin pass.old.token key result pass.new.token }
        ensures ready { IsPassReady self.now.origin pass.new }
        ensures calls { pass.new.calls ≡ pass.old.calls + length (answered_by key result) }
        ensures depth { depth pass.new.token ≡ depth pass.old.token }
    {
        ck_htread::look(&self.domain, pass, key)
    }

    /// The value of the key, or that it is absent: it looks until a look answers, as `ck_ht_get_spmc`. Where no other token steps while it
    /// does, the answer is what the map gives then.
    pub fn get<R: Wait>(&self, rt: &R, pass: &mut HtPass, key: Key) -> Option<u64>
        requires table { table pass.old.token ≡ self.now }
        requires section { 0 < depth pass.old.token }
        requires ready { IsPassReady self.now.origin pass.old }
        requires calls { pass.old.calls < 2 ^ 40 }
        ensures table { table pass.new.token ≡ table pass.old.token }
        ensures steps { Gets self.now.origin key pass.old.token (look_result result) pass.new.token }
        ensures looks { (knows with_signals self.now.origin pass.new.token).looks ≡ (knows with_signals self.now.origin pass.old.token).looks ++ (key, result) ∷ [] }
        ensures events { pass_events self.now.origin pass.new.token ≡ pass_events self.now.origin pass.old.token ++ Answered key result ∷ [] }
        ensures placed { HasAnswered with_signals self.now.origin pass.new.token (length (knows with_signals self.now.origin pass.old.token).looks) key result }
        ensures alone { AnswersAlone with_signals self.now.origin pass.old.token key (look_result result) pass.new.token }
        ensures ready { IsPassReady self.now.origin pass.new }
        ensures calls { pass.new.calls ≡ pass.old.calls + 1 }
        ensures depth { depth pass.new.token ≡ depth pass.old.token }
    {
        let backoff = Backoff::new();
        for _ in rt.forever() {
            match self.look(pass, key) {
                Look::Found(value) => return Some(value),
                Look::Absent => return None,
                Look::Again { .. } => backoff.snooze(),
            }
        }
        unreachable!()
    }

    /// Gives the key this value, as `ck_ht_set_spmc`, and answers what the map of one thread answers: whether the key is fresh, or else the value
    /// that it had; or that 262,144 pairs are there already. The map is rebuilt first where more than three quarters of its slots would be in use.
    /// Busy comes only where that is so, one poll was made, and the arena has no region for it still; nothing else was done then. The poll loaded
    /// a record active, so Busy never comes while none is, nor where nothing is pending.
    pub fn set<F: Fn(Item) -> Back>(
        &self,
        w: &mut HtWriter<F>,
        key: Key,
        value: u64,
    ) -> Result<Reply, Busy>
        requires table { table w.old.writer.token ≡ self.now }
        requires calls { w.old.writer.calls < 2 ^ 40 - 8 }
        requires handler { Answers (λ item. true) (λ item. home_of item) (F.pre w.old.writer.handler) (F.post w.old.writer.handler) }
        requires room { HasRoomFor self.now.origin.config.client.client.arena_log (length (step nat_cmp most (map_after (knows with_signals self.now.origin w.old.writer.token).log) (Set key value)).0) }
        ensures same { w.new.writer ≡ record w.old.writer { token = w.new.writer.token; calls = w.new.writer.calls; tally = w.new.writer.tally } }
        ensures tally { MatchResult result (λ r. w.new.writer.tally ≡ w.old.writer.tally + 1) (λ b. w.new.writer.tally ≡ w.old.writer.tally) }
        ensures calls { w.new.writer.calls ≤ w.old.writer.calls + 3 }
        ensures table { table w.new.writer.token ≡ table w.old.writer.token }
        ensures reply { IfOk result (λ r. r ≡ (step nat_cmp most (map_after (knows with_signals self.now.origin w.old.writer.token).log) (Set key value)).1) }
        ensures log { MatchResult result (λ r. (knows with_signals self.now.origin w.new.writer.token).log ≡ (knows with_signals self.now.origin w.old.writer.token).log ++ record { update = Set key value; reply = r } ∷ []) (λ b. (knows with_signals self.now.origin w.new.writer.token).log ≡ (knows with_signals self.now.origin w.old.writer.token).log) }
        ensures events { MatchResult result (λ r. hand_events self.now.origin w.new.writer.token ≡ hand_events self.now.origin w.old.writer.token ++ Updated (Set key value) r ∷ []) (λ b. hand_events self.now.origin w.new.writer.token ≡ hand_events self.now.origin w.old.writer.token) }
        ensures steps { IfOk result (λ r. (p : WriterState) → WriterIs with_signals self.now.origin w.old.writer.token p → MakesUpdate self.now.origin (Set key value) p w.old.writer.token w.new.writer.token) }
        ensures busy { IfErr result (λ b. IsBusy self.now.origin (Set key value) w.old.writer w.old.state b w.new.writer w.new.state) }
        ensures ok { (epochs w.old.writer.token).pending ≡ [] → IsOk result }
        ensures pending { length (epochs w.new.writer.token).pending ≤ length (epochs w.old.writer.token).pending + 1 }
    {
        self.update(w, &Update::Set(key, value))
    }

    /// Gives the key this value if it is absent, as `ck_ht_put_spmc`, and else answers the value that it has. Full and Busy as in `set`.
    pub fn put<F: Fn(Item) -> Back>(
        &self,
        w: &mut HtWriter<F>,
        key: Key,
        value: u64,
    ) -> Result<Reply, Busy>
        requires table { table w.old.writer.token ≡ self.now }
        requires calls { w.old.writer.calls < 2 ^ 40 - 8 }
        requires handler { Answers (λ item. true) (λ item. home_of item) (F.pre w.old.writer.handler) (F.post w.old.writer.handler) }
        requires room { HasRoomFor self.now.origin.config.client.client.arena_log (length (step nat_cmp most (map_after (knows with_signals self.now.origin w.old.writer.token).log) (Put key value)).0) }
        ensures same { w.new.writer ≡ record w.old.writer { token = w.new.writer.token; calls = w.new.writer.calls; tally = w.new.writer.tally } }
        ensures tally { MatchResult result (λ r. w.new.writer.tally ≡ w.old.writer.tally + 1) (λ b. w.new.writer.tally ≡ w.old.writer.tally) }
        ensures calls { w.new.writer.calls ≤ w.old.writer.calls + 3 }
        ensures table { table w.new.writer.token ≡ table w.old.writer.token }
        ensures reply { IfOk result (λ r. r ≡ (step nat_cmp most (map_after (knows with_signals self.now.origin w.old.writer.token).log) (Put key value)).1) }
        ensures log { MatchResult result (λ r. (knows with_signals self.now.origin w.new.writer.token).log ≡ (knows with_signals self.now.origin w.old.writer.token).log ++ record { update = Put key value; reply = r } ∷ []) (λ b. (knows with_signals self.now.origin w.new.writer.token).log ≡ (knows with_signals self.now.origin w.old.writer.token).log) }
        ensures events { MatchResult result (λ r. hand_events self.now.origin w.new.writer.token ≡ hand_events self.now.origin w.old.writer.token ++ Updated (Put key value) r ∷ []) (λ b. hand_events self.now.origin w.new.writer.token ≡ hand_events self.now.origin w.old.writer.token) }
        ensures steps { IfOk result (λ r. (p : WriterState) → WriterIs with_signals self.now.origin w.old.writer.token p → MakesUpdate self.now.origin (Put key value) p w.old.writer.token w.new.writer.token) }
        ensures busy { IfErr result (λ b. IsBusy self.now.origin (Put key value) w.old.writer w.old.state b w.new.writer w.new.state) }
        ensures ok { (epochs w.old.writer.token).pending ≡ [] → IsOk result }
        ensures pending { length (epochs w.new.writer.token).pending ≤ length (epochs w.old.writer.token).pending + 1 }
    {
        self.update(w, &Update::Put(key, value))
    }

    /// Rebuilds the map to as many slots where tombstones stand in it, as `ck_ht_gc_spmc`, but whole and at once, into another region; else it
    /// does nothing. Busy as in `set`.
    pub fn tidy<F: Fn(Item) -> Back>(&self, w: &mut HtWriter<F>) -> Result<Reply, Busy>
        requires table { table w.old.writer.token ≡ self.now }
        requires calls { w.old.writer.calls < 2 ^ 40 - 8 }
        requires handler { Answers (λ item. true) (λ item. home_of item) (F.pre w.old.writer.handler) (F.post w.old.writer.handler) }
        ensures same { w.new.writer ≡ record w.old.writer { token = w.new.writer.token; calls = w.new.writer.calls; tally = w.new.writer.tally } }
        ensures tally { MatchResult result (λ r. w.new.writer.tally ≡ w.old.writer.tally + 1) (λ b. w.new.writer.tally ≡ w.old.writer.tally) }
        ensures calls { w.new.writer.calls ≤ w.old.writer.calls + 3 }
        ensures table { table w.new.writer.token ≡ table w.old.writer.token }
        ensures reply { IfOk result (λ r. r ≡ Tidied) }
        ensures log { MatchResult result (λ r. (knows with_signals self.now.origin w.new.writer.token).log ≡ (knows with_signals self.now.origin w.old.writer.token).log ++ record { update = Tidy; reply = r } ∷ []) (λ b. (knows with_signals self.now.origin w.new.writer.token).log ≡ (knows with_signals self.now.origin w.old.writer.token).log) }
        ensures events { MatchResult result (λ r. hand_events self.now.origin w.new.writer.token ≡ hand_events self.now.origin w.old.writer.token ++ Updated Tidy r ∷ []) (λ b. hand_events self.now.origin w.new.writer.token ≡ hand_events self.now.origin w.old.writer.token) }
        ensures steps { IfOk result (λ r. (p : WriterState) → WriterIs with_signals self.now.origin w.old.writer.token p → MakesUpdate self.now.origin Tidy p w.old.writer.token w.new.writer.token) }
        ensures busy { IfErr result (λ b. IsBusy self.now.origin Tidy w.old.writer w.old.state b w.new.writer w.new.state) }
        ensures ok { (epochs w.old.writer.token).pending ≡ [] → IsOk result }
        ensures pending { length (epochs w.new.writer.token).pending ≤ length (epochs w.old.writer.token).pending + 1 }
    {
        self.update(w, &Update::Tidy)
    }

    // Makes the update, after one poll where the arena has no region for the rebuild that is due.
    fn update<F: Fn(Item) -> Back>(
        &self,
        w: &mut HtWriter<F>,
        update: &Update<Key>,
    ) -> Result<Reply, Busy>
        requires table { table w.old.writer.token ≡ self.now }
        requires calls { w.old.writer.calls < 2 ^ 40 - 8 }
        requires handler { Answers (λ item. true) (λ item. home_of item) (F.pre w.old.writer.handler) (F.post w.old.writer.handler) }
        requires rebuilds { MayRebuild update.now }
        requires keyed { IsKeyed update.now }
        requires room { update.now ≢ Tidy → HasRoomFor self.now.origin.config.client.client.arena_log (length (step nat_cmp most (map_after (knows with_signals self.now.origin w.old.writer.token).log) update.now).0) }
        ensures same { w.new.writer ≡ record w.old.writer { token = w.new.writer.token; calls = w.new.writer.calls; tally = w.new.writer.tally } }
        ensures tally { MatchResult result (λ r. w.new.writer.tally ≡ w.old.writer.tally + 1) (λ b. w.new.writer.tally ≡ w.old.writer.tally) }
        ensures calls { w.new.writer.calls ≤ w.old.writer.calls + 3 }
        ensures table { table w.new.writer.token ≡ table w.old.writer.token }
        ensures reply { IfOk result (λ r. r ≡ (step nat_cmp most (map_after (knows with_signals self.now.origin w.old.writer.token).log) update.now).1) }
        ensures log { MatchResult result (λ r. (knows with_signals self.now.origin w.new.writer.token).log ≡ (knows with_signals self.now.origin w.old.writer.token).log ++ record { update = update.now; reply = r } ∷ []) (λ b. (knows with_signals self.now.origin w.new.writer.token).log ≡ (knows with_signals self.now.origin w.old.writer.token).log) }
        ensures events { MatchResult result (λ r. hand_events self.now.origin w.new.writer.token ≡ hand_events self.now.origin w.old.writer.token ++ Updated update.now r ∷ []) (λ b. hand_events self.now.origin w.new.writer.token ≡ hand_events self.now.origin w.old.writer.token) }
        ensures steps { IfOk result (λ r. (p : WriterState) → WriterIs with_signals self.now.origin w.old.writer.token p → MakesUpdate self.now.origin update.now p w.old.writer.token w.new.writer.token) }
        ensures busy { IfErr result (λ b. IsBusy self.now.origin update.now w.old.writer w.old.state b w.new.writer w.new.state) }
        ensures ok { (epochs w.old.writer.token).pending ≡ [] → IsOk result }
        ensures pending { length (epochs w.new.writer.token).pending ≤ length (epochs w.old.writer.token).pending + 1 }
    {
        apply(&self.domain, &mut w.writer, &mut w.state, update)
    }

    /// Removes the key, as `ck_ht_remove_spmc`, and answers the value that it had, or that it was missing.
    pub fn remove<F>(&self, w: &mut HtWriter<F>, key: Key) -> Reply
        requires table { table w.old.writer.token ≡ self.now }
        requires calls { w.old.writer.calls < 2 ^ 40 }
        ensures same { w.new.writer ≡ record w.old.writer { token = w.new.writer.token; calls = w.old.writer.calls + 1; tally = w.old.writer.tally + 1 } }
        ensures table { table w.new.writer.token ≡ table w.old.writer.token }
        ensures reply { result ≡ (step nat_cmp most (map_after (knows with_signals self.now.origin w.old.writer.token).log) (Del key)).1 }
        ensures log { (knows with_signals self.now.origin w.new.writer.token).log ≡ (knows with_signals self.now.origin w.old.writer.token).log ++ record { update = Del key; reply = result } ∷ [] }
        ensures steps { (p : WriterState) → WriterIs with_signals self.now.origin w.old.writer.token p → (ss : List Step) × RemoveSteps (lies with_signals self.now.origin) p (plan_now (lies with_signals self.now.origin) p key) ss × (w.new.writer.token ≡ adding w.old.writer.token (opened (removing ∷ key ∷ []) ss)) }
        ensures events { hand_events self.now.origin w.new.writer.token ≡ hand_events self.now.origin w.old.writer.token ++ Updated (Del key) result ∷ [] }
        ensures pending { (epochs w.new.writer.token).pending ≡ (epochs w.old.writer.token).pending }
    {
        ck_htwrite::remove(&self.domain, &mut w.writer, &mut w.state, key)
    }

    /// Waits until each section that is open now has ended, as `ck_epoch_barrier`, and gives all that was retired back to the arena. Answers how
    /// many regions that were.
    pub fn barrier<F: Fn(Item) -> Back, R: Wait>(&self, rt: &R, w: &mut HtWriter<F>) -> u64
        requires table { table w.old.writer.token ≡ self.now }
        requires calls { w.old.writer.calls < 2 ^ 40 }
        requires handler { Answers (λ item. true) (λ item. home_of item) (F.pre w.old.writer.handler) (F.post w.old.writer.handler) }
        ensures same { w.new.writer ≡ record w.old.writer { token = w.new.writer.token; calls = w.old.writer.calls + 1 } }
        ensures table { table w.new.writer.token ≡ table w.old.writer.token }
        ensures steps { Rounds (records_of self.now.origin) bars (epochs w.old.writer.token).epoch w.old.writer.token w.new.writer.token }
        ensures log { (knows with_signals self.now.origin w.new.writer.token).log ≡ (knows with_signals self.now.origin w.old.writer.token).log }
        ensures events { hand_events self.now.origin w.new.writer.token ≡ hand_events self.now.origin w.old.writer.token }
        ensures pending { (epochs w.new.writer.token).pending ≡ [] }
        ensures count { result ≡ length (epochs w.old.writer.token).pending }
    {
        give_all::<_, Ht, _, _>(&self.domain, rt, &mut w.writer, &mut w.state.arena)
    }

    /// The pairs of the map now, by ascending key. The only error is want of memory.
    pub fn entries<F>(&self, alloc: Global, w: &HtWriter<F>) -> Result<Vec<(Key, u64)>, AllocError>
        requires table { table w.now.writer.token ≡ self.now }
        ensures { IfOk result (λ r. r.items ≡ map_after (knows with_signals self.now.origin w.now.writer.token).log) }
    {
        let _updates = w.writer.tally(); // contracts see by it that the token is a writer's in a true run
        w.state.entries(alloc)
    }

    /// How many slots the map has now.
    pub fn slots<F>(&self, w: &HtWriter<F>) -> u64
        ensures { result ≡ 2 ^ log_of w.now.state.root }
    {
        w.state.slots()
    }

    /// How many words of the arena are free.
    pub fn free_words<F>(&self, w: &HtWriter<F>) -> u64
        ensures { result ≡ free_words w.now.state.arena }
    {
        w.state.free_words()
    }

    /// Tells the readers how many updates the log has.
    pub fn mark<F>(&self, w: &mut HtWriter<F>)
        requires table { table w.old.writer.token ≡ self.now }
        ensures step { w.new.writer ≡ record w.old.writer { token = adding w.old.writer.token (marks (applied_word_of table_client self.now.origin) (length (knows with_signals self.now.origin w.old.writer.token).log) ∷ []) } }
        ensures log { (knows with_signals self.now.origin w.new.writer.token).log ≡ (knows with_signals self.now.origin w.old.writer.token).log }
        ensures events { hand_events self.now.origin w.new.writer.token ≡ hand_events self.now.origin w.old.writer.token }
    {
        ck_signal::mark(&self.domain, &mut w.writer)
    }

    /// Whether the writer has marked at least `n` updates: Ok if and only if the number that this call loads is at least `n`. The later
    /// answers of the pass have places of at least that number. Err carries it.
    pub fn reached(&self, pass: &mut HtPass, n: u64) -> Result<(), u64>
        requires table { table pass.old.token ≡ self.now }
        requires ready { IsPassReady self.now.origin pass.old }
        ensures step { MatchResult result
            (λ _. (found : ℕ) × (n ≤ found) × (pass.new ≡ record pass.old { token = adding pass.old.token (reaches (applied_word_of table_client self.now.origin) n found ∷ []) }))
            (λ found. (found < n) × (pass.new ≡ record pass.old { token = adding pass.old.token (reaches (applied_word_of table_client self.now.origin) n found ∷ []) })) }
        ensures totals { totals_of (knows with_signals self.now.origin pass.new.token) ≡ totals_of (knows with_signals self.now.origin pass.old.token) }
        ensures events { pass_events self.now.origin pass.new.token ≡ pass_events self.now.origin pass.old.token ++ Reached n result ∷ [] }
        ensures ready { IsPassReady self.now.origin pass.new }
        ensures depth { depth pass.new.token ≡ depth pass.old.token }
    {
        ck_signal::reached(&self.domain, pass, n)
    }

    /// Tells the writer how many answers the pass has given.
    pub fn note(&self, pass: &mut HtPass)
        requires table { table pass.old.token ≡ self.now }
        requires ready { IsPassReady self.now.origin pass.old }
        ensures step { pass.new ≡ record pass.old { token = adding pass.old.token (notes (answered_word_of table_client self.now.origin (rec_of pass.old.token)) (length (knows with_signals self.now.origin pass.old.token).looks) ∷ []) } }
        ensures totals { totals_of (knows with_signals self.now.origin pass.new.token) ≡ totals_of (knows with_signals self.now.origin pass.old.token) }
        ensures events { pass_events self.now.origin pass.new.token ≡ pass_events self.now.origin pass.old.token }
        ensures ready { IsPassReady self.now.origin pass.new }
        ensures depth { depth pass.new.token ≡ depth pass.old.token }
    {
        ck_signal::note(&self.domain, pass)
    }

    /// How many answers the reader with this number, from 0, has noted. These first answers have places of at most the length of the log.
    pub fn answered<F>(&self, w: &mut HtWriter<F>, reader: u64) -> u64
        requires table { table w.old.writer.token ≡ self.now }
        requires reader { reader < readers self.now.origin }
        ensures step { w.new.writer ≡ record w.old.writer { token = adding w.old.writer.token (asks (answered_word_of table_client self.now.origin reader) reader result ∷ []) } }
        ensures log { (knows with_signals self.now.origin w.new.writer.token).log ≡ (knows with_signals self.now.origin w.old.writer.token).log }
        ensures events { hand_events self.now.origin w.new.writer.token ≡ hand_events self.now.origin w.old.writer.token ++ Told reader result ∷ [] }
    {
        ck_signal::answered(&self.domain, &mut w.writer, reader)
    }

    /// The words of the table as they were left. The writer and the passes are given back: what they did are the parts of one true run, in
    /// which the answers of each reader have places that don't fall, and bear out what `reached` and `answered` told.
    pub fn close<F: Drop>(self, w: HtWriter<F>, passes: Vec<HtPass>) -> Closed
        requires writer { table w.writer.token ≡ self }
        requires passes { All (λ p. table p.token ≡ self) passes.items }
        requires ready { All (λ p. IsPassReady self.origin p) passes.items }
        ensures closed { IsClosedTable w.writer.token passes.items result.words.items }
    {
        ck_signal::signals_law::<HtClient>();
        ck_htlaw::table_law::<Signals<HtClient>>();
        ck_htread::places_law::<Signals<HtClient>>();
        settled_law();
        let Ht { domain } = self;
        let HtWriter { writer, .. } = w;
        domain.close(writer, passes)
    }
}
