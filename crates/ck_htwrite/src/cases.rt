//! Which case an update is.
ghost use Rattle.std.specs.Prelude.{ℕ, ◌≡◌, ◌+◌, ◌*◌, ◌^◌, ◌<◌, ◌≤◌, nat_le, [], ◌∷◌, length, MatchResult, IfErr};
ghost use Rattle.ck_run.specs.Tokens.{table};
ghost use Rattle.ck_slots.specs.Counting.{rebuilt_log};
ghost use Rattle.ck_epoch.specs.State.{state as epochs};
ghost use Rattle.ck_htplan.specs.declared.cases.Plan.TheVariants.{Empty};
ghost use Rattle.ck_htplan.specs.Region.{view_of};
ghost use Rattle.ck_htlaw.specs.Calls.{remove as removing};
ghost use Rattle.ck_htlaw.specs.Host.{host, lies};
ghost use Rattle.ck_htlaw.specs.Stages.{reuse as reusing};
ghost use Rattle.ck_htlaw.specs.Layout.{log_of};
ghost use Rattle.ck_htlaw.specs.Table.{WriterState};
ghost use Rattle.ck_htlaw.specs.Actions.{added, plan_now, remove_reply};
ghost use Rattle.ck_arena.specs.Arena.{unreturned};
ghost use Rattle.ck_htwrite.specs.Arena.{IsKept};
ghost use Rattle.ck_htwrite.specs.Rebuild.{GoesOnAfter};
ghost use Rattle.ck_htwrite.specs.State.{Reflects, IsReady, next_count};
ghost use Rattle.ck_htwrite.specs.Updates.{AddsFresh, IsDone, IsGrown, IsIn, HasStates, IsAdding, IsNeeded, IsMade, InsertSteps, ReuseSteps, RemoveSteps, StoreSteps, storing, store_reply};
ghost use Rattle.ck_htwrite.specs.Writes.{counters_in};

use crate::copies::word_in;
use crate::growth::rebuild;
use crate::state::{HtState, Need};
use crate::updates::{delete, insert, move_key, reuse};
use crate::writes::{ask_root, put_word};
use ck_epoch::{Domain, Within, Writer};
use ck_history::{Key, Reply};
use ck_htlaw::HtClient;
use ck_htplan::{Plan, VALUE, high_word, low_word, plan};
use ck_probe::key_code;
use ck_run::{Continues, Opens};

// The most pairs of a table.
const MOST: u64 = 262_144;

// How an update finds its key.
pub(crate) fn plan_for<D: Within<HtClient>>(domain: &Domain<D>, state: &HtState, key: Key) -> Plan
    requires lists { (p : WriterState) × Reflects (counters_in (host D.meaning D.place D.part) domain.now.origin) (lies (host D.meaning D.place D.part) domain.now.origin) p state.now }
    ensures inside { IsIn (2 ^ log_of state.now.root) result }
    ensures states { HasStates (view_of state.now.words.items) result }
    ensures plan { (p : WriterState) → Reflects (counters_in (host D.meaning D.place D.part) domain.now.origin) (lies (host D.meaning D.place D.part) domain.now.origin) p state.now → plan_now (lies (host D.meaning D.place D.part) domain.now.origin) p key ≡ result }
{
    let hash = key_code(low_word(key), high_word(key), domain.client().inner().seed);
    plan(&state.words, state.root % 32, hash, key)
}

// The logarithm of the slots after a rebuild for a fresh key: one more where more than half of the slots would be full.
fn grown_log(state: &HtState) -> u64
    requires log { log_of state.now.root ≤ 19 }
    requires keys { state.now.keys ≤ 524288 }
    ensures { result ≡ rebuilt_log (log_of state.now.root) state.now.keys }
{
    let log = state.root % 32;
    if 2 * (state.keys + 1) > 1 << log {
        log + 1
    } else {
        log
    }
}

// Whether a fresh key may take an empty slot as the map is: at most three quarters of the slots are in use then.
fn is_roomy(state: &HtState) -> bool
    requires log { log_of state.now.root ≤ 19 }
    requires keys { state.now.keys ≤ 524288 }
    requires tombstones { state.now.tombstones ≤ 524288 }
    ensures { result ≡ nat_le (4 * (state.now.keys + state.now.tombstones + 1)) (3 * 2 ^ log_of state.now.root) }
{
    4 * (state.keys + state.tombstones + 1) <= 3 * (1 << (state.root % 32))
}

// The map is rebuilt into a free region, and then a fresh key goes into an empty slot. The new region has no tombstone, and at most half of its
// slots are in use, so the key's plan names an empty slot that it may take.
fn add_grown<D: Within<HtClient>, F, O: Opens>(
    domain: &Domain<D>,
    writer: &mut Writer<D, F>,
    state: &mut HtState,
    key: Key,
    value: u64,
) -> Result<Reply, Need>
    requires table { table writer.old.token ≡ domain.now }
    requires calls { writer.old.calls < 2 ^ 40 }
    requires room { length (epochs writer.old.token).pending + length writer.old.waiting < writer.old.room }
    requires arena { IsKept (counters_in (host D.meaning D.place D.part) domain.now.origin) (D.place domain.now.origin.config.client) state.old.root (unreturned (epochs writer.old.token) writer.old.waiting) state.old.arena }
    requires keys { state.old.keys < 262144 }
    requires full { 3 * 2 ^ log_of state.old.root < 4 * (state.old.keys + state.old.tombstones + 1) }
    requires goes_on { GoesOnAfter (lies (host D.meaning D.place D.part) domain.now.origin) O.opens }
    requires adds { AddsFresh O.opens key value }
    requires due { (r : IsReady (host D.meaning D.place D.part) domain.now.origin writer.old.token state.old) × (at : ℕ) × (plan_now (lies (host D.meaning D.place D.part) domain.now.origin) r.is_writer key ≡ Empty at) }
    ensures made { (r : IsReady (host D.meaning D.place D.part) domain.now.origin writer.old.token state.old) (at : ℕ) → plan_now (lies (host D.meaning D.place D.part) domain.now.origin) r.is_writer key ≡ Empty at → MatchResult result (λ reply. IsGrown (host D.meaning D.place D.part) domain.now.origin r.is_writer (added (lies (host D.meaning D.place D.part) domain.now.origin) r.is_writer) (Empty at) O.opens key value writer.old reply writer.new state.old state.new) (λ need. IsNeeded (host D.meaning D.place D.part) domain.now.origin r.is_writer (Empty at) state.old need) }
    ensures same { IfErr result (λ need. (writer.new ≡ writer.old) × (state.new ≡ state.old)) }
{
    let _updates = writer.tally();
    let log = grown_log(state);
    rebuild::<D, F, O>(domain, writer, state, log)?;
    let Plan::Empty { at } = plan_for(domain, state, key) else {
        unreachable!();
    };
    insert::<D, F, Continues>(domain, writer, state, at, key, value);
    Ok(Reply::Fresh)
}

// A fresh key goes into an empty slot, if there is room.
fn add_empty<D: Within<HtClient>, F, O: Opens>(
    domain: &Domain<D>,
    writer: &mut Writer<D, F>,
    state: &mut HtState,
    at: u64,
    key: Key,
    value: u64,
) -> Result<Reply, Need>
    requires table { table writer.old.token ≡ domain.now }
    requires calls { writer.old.calls < 2 ^ 40 }
    requires room { length (epochs writer.old.token).pending + length writer.old.waiting < writer.old.room }
    requires arena { IsKept (counters_in (host D.meaning D.place D.part) domain.now.origin) (D.place domain.now.origin.config.client) state.old.root (unreturned (epochs writer.old.token) writer.old.waiting) state.old.arena }
    requires slot { at < 2 ^ log_of state.old.root }
    requires was { (view_of state.old.words.items).state at ≡ 0 }
    requires goes_on { GoesOnAfter (lies (host D.meaning D.place D.part) domain.now.origin) O.opens }
    requires adds { AddsFresh O.opens key value }
    requires due { (r : IsReady (host D.meaning D.place D.part) domain.now.origin writer.old.token state.old) × (plan_now (lies (host D.meaning D.place D.part) domain.now.origin) r.is_writer key ≡ Empty at) }
    ensures made { (r : IsReady (host D.meaning D.place D.part) domain.now.origin writer.old.token state.old) → plan_now (lies (host D.meaning D.place D.part) domain.now.origin) r.is_writer key ≡ Empty at → MatchResult result (λ reply. IsDone (host D.meaning D.place D.part) domain.now.origin r.is_writer (added (lies (host D.meaning D.place D.part) domain.now.origin) r.is_writer) (InsertSteps (lies (host D.meaning D.place D.part) domain.now.origin) r.is_writer key value at) (Empty at) O.opens key value writer.old reply writer.new state.old state.new) (λ need. IsNeeded (host D.meaning D.place D.part) domain.now.origin r.is_writer (Empty at) state.old need) }
    ensures same { IfErr result (λ need. (writer.new ≡ writer.old) × (state.new ≡ state.old)) }
{
    if state.keys >= MOST {
        ask_root::<D, F, O>(domain, writer);
        return Ok(Reply::Full);
    }
    if !is_roomy(state) {
        return add_grown::<D, F, O>(domain, writer, state, key, value);
    }
    insert::<D, F, O>(domain, writer, state, at, key, value);
    Ok(Reply::Fresh)
}

// A fresh key takes a tombstone, if there is room.
fn add_reused<D: Within<HtClient>, F, O: Opens>(
    domain: &Domain<D>,
    writer: &mut Writer<D, F>,
    state: &mut HtState,
    at: u64,
    key: Key,
    value: u64,
) -> Reply
    requires table { table writer.old.token ≡ domain.now }
    requires slot { at < 2 ^ log_of state.old.root }
    requires was { (view_of state.old.words.items).state at ≡ 2 }
    requires small { next_count (counters_in (host D.meaning D.place D.part) domain.now.origin) state.old < 2 ^ 62 }
    requires due { (r : IsReady (host D.meaning D.place D.part) domain.now.origin writer.old.token state.old) × IsAdding (lies (host D.meaning D.place D.part) domain.now.origin) r.is_writer O.opens reusing (record { key = key; number = value; to = at }) }
    ensures made { (r : IsReady (host D.meaning D.place D.part) domain.now.origin writer.old.token state.old) → IsAdding (lies (host D.meaning D.place D.part) domain.now.origin) r.is_writer O.opens reusing (record { key = key; number = value; to = at }) → IsMade (host D.meaning D.place D.part) domain.now.origin r.is_writer (added (lies (host D.meaning D.place D.part) domain.now.origin) r.is_writer) (ReuseSteps (lies (host D.meaning D.place D.part) domain.now.origin) r.is_writer key value at) O.opens writer.old result writer.new state.new }
    ensures kept { (state.new.root ≡ state.old.root) × (state.new.arena ≡ state.old.arena) }
{
    if state.keys >= MOST {
        ask_root::<D, F, O>(domain, writer);
        return Reply::Full;
    }
    reuse::<D, F, O>(domain, writer, state, at, key, value);
    Reply::Fresh
}

// `put` by its plan where `keeps` is true, which keeps the value of a key that is present, also where a tombstone stands before it; or else
// `set`. It is inlined, so that each of its two callers has code for its own `keeps`.
#[inline(always)]
pub(crate) fn store_by<D: Within<HtClient>, F, O: Opens>(
    domain: &Domain<D>,
    writer: &mut Writer<D, F>,
    state: &mut HtState,
    plan: Plan,
    key: Key,
    value: u64,
    keeps: bool,
) -> Result<Reply, Need>
    requires table { table writer.old.token ≡ domain.now }
    requires calls { writer.old.calls < 2 ^ 40 }
    requires room { length (epochs writer.old.token).pending + length writer.old.waiting < writer.old.room }
    requires arena { IsKept (counters_in (host D.meaning D.place D.part) domain.now.origin) (D.place domain.now.origin.config.client) state.old.root (unreturned (epochs writer.old.token) writer.old.waiting) state.old.arena }
    requires name { O.opens ≡ storing keeps key value }
    requires inside { IsIn (2 ^ log_of state.old.root) plan }
    requires states { HasStates (view_of state.old.words.items) plan }
    requires small { next_count (counters_in (host D.meaning D.place D.part) domain.now.origin) state.old < 2 ^ 62 }
    requires due { (r : IsReady (host D.meaning D.place D.part) domain.now.origin writer.old.token state.old) × (plan_now (lies (host D.meaning D.place D.part) domain.now.origin) r.is_writer key ≡ plan) }
    ensures made { (r : IsReady (host D.meaning D.place D.part) domain.now.origin writer.old.token state.old) → plan_now (lies (host D.meaning D.place D.part) domain.now.origin) r.is_writer key ≡ plan → MatchResult result (λ reply. IsDone (host D.meaning D.place D.part) domain.now.origin r.is_writer (store_reply (lies (host D.meaning D.place D.part) domain.now.origin) r.is_writer keeps plan) (StoreSteps (lies (host D.meaning D.place D.part) domain.now.origin) r.is_writer keeps key value plan) plan O.opens key value writer.old reply writer.new state.old state.new) (λ need. IsNeeded (host D.meaning D.place D.part) domain.now.origin r.is_writer plan state.old need) }
    ensures same { IfErr result (λ need. (writer.new ≡ writer.old) × (state.new ≡ state.old)) }
{
    match plan {
        Plan::Empty { at } => add_empty::<D, F, O>(domain, writer, state, at, key, value),
        Plan::Reuse { at } => Ok(add_reused::<D, F, O>(domain, writer, state, at, key, value)),
        Plan::Stand { at } | Plan::Move { from: at, .. } => {
            let was = word_in(&state.words, at, VALUE);
            if keeps {
                ask_root::<D, F, O>(domain, writer);
                return Ok(Reply::Has(was));
            }
            if let Plan::Move { to, .. } = plan {
                move_key::<D, F, O>(domain, writer, state, to, at, key, value);
            } else {
                put_word::<D, F, O>(domain, writer, state, at, VALUE, value);
            }
            Ok(Reply::Was(was))
        }
    }
}

// `remove` by its plan.
pub(crate) fn remove_by<D: Within<HtClient>, F, O: Opens>(
    domain: &Domain<D>,
    writer: &mut Writer<D, F>,
    state: &mut HtState,
    plan: Plan,
    key: Key,
) -> Reply
    requires table { table writer.old.token ≡ domain.now }
    requires name { O.opens ≡ removing ∷ key ∷ [] }
    requires inside { IsIn (2 ^ log_of state.old.root) plan }
    requires states { HasStates (view_of state.old.words.items) plan }
    requires small { next_count (counters_in (host D.meaning D.place D.part) domain.now.origin) state.old < 2 ^ 62 }
    requires due { (r : IsReady (host D.meaning D.place D.part) domain.now.origin writer.old.token state.old) × (plan_now (lies (host D.meaning D.place D.part) domain.now.origin) r.is_writer key ≡ plan) }
    ensures made { (r : IsReady (host D.meaning D.place D.part) domain.now.origin writer.old.token state.old) → plan_now (lies (host D.meaning D.place D.part) domain.now.origin) r.is_writer key ≡ plan → IsMade (host D.meaning D.place D.part) domain.now.origin r.is_writer (remove_reply (lies (host D.meaning D.place D.part) domain.now.origin) r.is_writer plan) (RemoveSteps (lies (host D.meaning D.place D.part) domain.now.origin) r.is_writer plan) O.opens writer.old result writer.new state.new }
    ensures kept { (state.new.root ≡ state.old.root) × (state.new.arena ≡ state.old.arena) }
{
    let _key = key;
    match plan {
        Plan::Stand { at } | Plan::Move { from: at, .. } => {
            let was = word_in(&state.words, at, VALUE);
            delete::<D, F, O>(domain, writer, state, at);
            Reply::Was(was)
        }
        Plan::Empty { .. } | Plan::Reuse { .. } => {
            ask_root::<D, F, O>(domain, writer);
            Reply::Missing
        }
    }
}
