//! The calls that update a table, over any domain whose client holds it.
ghost use Rattle.std.specs.Prelude.{◌≡◌, ◌+◌, ◌<◌, ◌≤◌, ◌^◌, ◌⊎◌, List, [], ◌∷◌, ◌++◌, length, MatchResult, IfOk, IfErr};
ghost use Rattle.std.specs.Ordering.{nat_cmp};
ghost use Rattle.ck_run.specs.declared.account.Step.{Step};
ghost use Rattle.ck_run.specs.declared.account.Entry.{Entry};
ghost use Rattle.ck_run.specs.Tokens.{table, adding};
ghost use Rattle.ck_history.specs.Map.{step};
ghost use Rattle.ck_history.specs.declared.update.Update.TheVariants.{Set, Put, Del};
ghost use Rattle.ck_epoch.specs.State.{state as epochs};
ghost use Rattle.ck_epoch.specs.Ends.{IsWriting};
ghost use Rattle.ck_htplan.specs.Region.{view_of};
ghost use Rattle.ck_htlaw.specs.Calls.{set as setting, put as putting, remove as removing};
ghost use Rattle.ck_htlaw.specs.Host.{host, lies};
ghost use Rattle.ck_htlaw.specs.Layout.{log_of};
ghost use Rattle.ck_htlaw.specs.Table.{WriterState};
ghost use Rattle.ck_htlaw.specs.Actions.{most, plan_now};
ghost use Rattle.ck_htlaw.specs.Linearized.{map_after};
ghost use Rattle.ck_htlaw.specs.Known.{knows};
ghost use Rattle.ck_arena.specs.Arena.{unreturned, HasNoneFree};
ghost use Rattle.ck_htwrite.specs.Arena.{AddsRegion, MayAddRegion};
ghost use Rattle.ck_htwrite.specs.State.{IsReady, Ready, next_count};
ghost use Rattle.ck_htwrite.specs.Updates.{SetSteps, PutSteps, RemoveSteps, IsIn, HasStates, IsNeeded, IsRebuildDue, Makes, needed_log};
ghost use Rattle.ck_htwrite.specs.Writes.{WriterIs, counters_in, opened};

use crate::cases::{plan_for, remove_by, store_by};
use crate::state::{HtState, Need};
use ck_epoch::{Domain, Within, Writer};
use ck_history::{Key, Reply};
use ck_htlaw::HtClient;
use ck_htplan::Plan;
use std::marker::Brand;

// How an update finds its key, before its first step.
fn first_plan<D: Within<HtClient>, F>(
    domain: &Domain<D>,
    writer: &Writer<D, F>,
    state: &HtState,
    key: Key,
) -> Plan
    requires table { table writer.now.token ≡ domain.now }
    requires calls { writer.now.calls < 2 ^ 40 }
    requires ready { Ready (host D.meaning D.place D.part) domain.now.origin writer.now state.now }
    ensures writing { IsWriting D.meaning writer.now.token }
    ensures inside { IsIn (2 ^ log_of state.now.root) result }
    ensures states { HasStates (view_of state.now.words.items) result }
    ensures small { next_count (counters_in (host D.meaning D.place D.part) domain.now.origin) state.now < 2 ^ 62 }
    ensures plan { (r : IsReady (host D.meaning D.place D.part) domain.now.origin writer.now.token state.now) → plan_now (lies (host D.meaning D.place D.part) domain.now.origin) r.is_writer key ≡ result }
{
    let _updates = writer.tally();
    plan_for(domain, state, key)
}

// One more update is done.
pub(crate) fn count_update<D: Within<HtClient>, F>(writer: &mut Writer<D, F>)
    requires calls { writer.old.calls < 2 ^ 40 }
    requires few { writer.old.tally ≤ writer.old.calls }
    ensures { writer.new ≡ record writer.old { calls = writer.old.calls + 1; tally = writer.old.tally + 1 } }
{
    let updates = writer.tally() + 1;
    writer.set_tally(updates);
}

/// Gives the key this value, as `ck_ht_set_spmc`, and answers what the map of one thread answers: whether the key is fresh, or else the value
/// that it had; or that 262,144 pairs are there already. The map is rebuilt first where more than three quarters of its slots would be in use.
/// Need comes exactly where that is so and no piece of the length that it takes is free, and then nothing changed.
pub fn set<D: Within<HtClient>, F>(
    domain: &Domain<D>,
    writer: &mut Writer<D, F>,
    state: &mut HtState,
    key: Key,
    value: u64,
) -> Result<Reply, Need>
    requires table { table writer.old.token ≡ domain.now }
    requires calls { writer.old.calls + 1 < 2 ^ 40 }
    requires room { length (epochs writer.old.token).pending + length writer.old.waiting < writer.old.room }
    requires ready { Ready (host D.meaning D.place D.part) domain.now.origin writer.old state.old }
    ensures same { MatchResult result (λ r. writer.new ≡ record writer.old { token = writer.new.token; calls = writer.new.calls; tally = writer.old.tally + 1 }) (λ need. (writer.new ≡ writer.old) × (state.new ≡ state.old)) }
    ensures calls { writer.new.calls ≤ writer.old.calls + 2 }
    ensures waiting { (writer.new.waiting ≡ writer.old.waiting) × (writer.new.room ≡ writer.old.room) }
    ensures pending { length (epochs writer.new.token).pending ≤ length (epochs writer.old.token).pending + 1 }
    ensures items { IfOk result (λ r. MayAddRegion (counters_in (host D.meaning D.place D.part) domain.now.origin) (D.place domain.now.origin.config.client) (unreturned (epochs writer.old.token) writer.old.waiting) (unreturned (epochs writer.new.token) writer.new.waiting)) }
    ensures root { IfOk result (λ r. (state.new.root ≡ state.old.root) ⊎ AddsRegion (counters_in (host D.meaning D.place D.part) domain.now.origin) (D.place domain.now.origin.config.client) (unreturned (epochs writer.old.token) writer.old.waiting) (unreturned (epochs writer.new.token) writer.new.waiting)) }
    ensures table { table writer.new.token ≡ table writer.old.token }
    ensures reply { IfOk result (λ r. r ≡ (step nat_cmp most (map_after (knows (host D.meaning D.place D.part) domain.now.origin writer.old.token).log) (Set key value)).1) }
    ensures log { IfOk result (λ r. (knows (host D.meaning D.place D.part) domain.now.origin writer.new.token).log ≡ (knows (host D.meaning D.place D.part) domain.now.origin writer.old.token).log ++ record { update = Set key value; reply = r } ∷ []) }
    ensures steps { IfOk result (λ r. (p : WriterState) → WriterIs (host D.meaning D.place D.part) domain.now.origin writer.old.token p → (es : List Entry) × Makes (lies (host D.meaning D.place D.part) domain.now.origin) p (SetSteps (lies (host D.meaning D.place D.part) domain.now.origin) p key value (plan_now (lies (host D.meaning D.place D.part) domain.now.origin) p key)) (plan_now (lies (host D.meaning D.place D.part) domain.now.origin) p key) (setting ∷ key ∷ value ∷ []) key value es × (writer.new.token ≡ adding writer.old.token es)) }
    ensures need { IfErr result (λ need. (p : WriterState) → WriterIs (host D.meaning D.place D.part) domain.now.origin writer.old.token p → IsNeeded (host D.meaning D.place D.part) domain.now.origin p (plan_now (lies (host D.meaning D.place D.part) domain.now.origin) p key) state.old need) }
    ensures free { IfOk result (λ r. (p : WriterState) → WriterIs (host D.meaning D.place D.part) domain.now.origin writer.old.token p → IsRebuildDue (lies (host D.meaning D.place D.part) domain.now.origin) p (plan_now (lies (host D.meaning D.place D.part) domain.now.origin) p key) → HasNoneFree state.old.arena (needed_log (lies (host D.meaning D.place D.part) domain.now.origin) p) → ⊥) }
    ensures ready { Ready (host D.meaning D.place D.part) domain.now.origin writer.new state.new }
{
    let plan = first_plan(domain, writer, state, key);
    let reply = store_by::<D, F, Brand>(domain, writer, state, plan, key, value, false)?;
    count_update(writer);
    Ok(reply)
}

/// Gives the key this value if it is absent, as `ck_ht_put_spmc`, and else answers the value that it has. Full and Need as in `set`.
pub fn put<D: Within<HtClient>, F>(
    domain: &Domain<D>,
    writer: &mut Writer<D, F>,
    state: &mut HtState,
    key: Key,
    value: u64,
) -> Result<Reply, Need>
    requires table { table writer.old.token ≡ domain.now }
    requires calls { writer.old.calls + 1 < 2 ^ 40 }
    requires room { length (epochs writer.old.token).pending + length writer.old.waiting < writer.old.room }
    requires ready { Ready (host D.meaning D.place D.part) domain.now.origin writer.old state.old }
    ensures same { MatchResult result (λ r. writer.new ≡ record writer.old { token = writer.new.token; calls = writer.new.calls; tally = writer.old.tally + 1 }) (λ need. (writer.new ≡ writer.old) × (state.new ≡ state.old)) }
    ensures calls { writer.new.calls ≤ writer.old.calls + 2 }
    ensures waiting { (writer.new.waiting ≡ writer.old.waiting) × (writer.new.room ≡ writer.old.room) }
    ensures pending { length (epochs writer.new.token).pending ≤ length (epochs writer.old.token).pending + 1 }
    ensures items { IfOk result (λ r. MayAddRegion (counters_in (host D.meaning D.place D.part) domain.now.origin) (D.place domain.now.origin.config.client) (unreturned (epochs writer.old.token) writer.old.waiting) (unreturned (epochs writer.new.token) writer.new.waiting)) }
    ensures root { IfOk result (λ r. (state.new.root ≡ state.old.root) ⊎ AddsRegion (counters_in (host D.meaning D.place D.part) domain.now.origin) (D.place domain.now.origin.config.client) (unreturned (epochs writer.old.token) writer.old.waiting) (unreturned (epochs writer.new.token) writer.new.waiting)) }
    ensures table { table writer.new.token ≡ table writer.old.token }
    ensures reply { IfOk result (λ r. r ≡ (step nat_cmp most (map_after (knows (host D.meaning D.place D.part) domain.now.origin writer.old.token).log) (Put key value)).1) }
    ensures log { IfOk result (λ r. (knows (host D.meaning D.place D.part) domain.now.origin writer.new.token).log ≡ (knows (host D.meaning D.place D.part) domain.now.origin writer.old.token).log ++ record { update = Put key value; reply = r } ∷ []) }
    ensures steps { IfOk result (λ r. (p : WriterState) → WriterIs (host D.meaning D.place D.part) domain.now.origin writer.old.token p → (es : List Entry) × Makes (lies (host D.meaning D.place D.part) domain.now.origin) p (PutSteps (lies (host D.meaning D.place D.part) domain.now.origin) p key value (plan_now (lies (host D.meaning D.place D.part) domain.now.origin) p key)) (plan_now (lies (host D.meaning D.place D.part) domain.now.origin) p key) (putting ∷ key ∷ value ∷ []) key value es × (writer.new.token ≡ adding writer.old.token es)) }
    ensures need { IfErr result (λ need. (p : WriterState) → WriterIs (host D.meaning D.place D.part) domain.now.origin writer.old.token p → IsNeeded (host D.meaning D.place D.part) domain.now.origin p (plan_now (lies (host D.meaning D.place D.part) domain.now.origin) p key) state.old need) }
    ensures free { IfOk result (λ r. (p : WriterState) → WriterIs (host D.meaning D.place D.part) domain.now.origin writer.old.token p → IsRebuildDue (lies (host D.meaning D.place D.part) domain.now.origin) p (plan_now (lies (host D.meaning D.place D.part) domain.now.origin) p key) → HasNoneFree state.old.arena (needed_log (lies (host D.meaning D.place D.part) domain.now.origin) p) → ⊥) }
    ensures ready { Ready (host D.meaning D.place D.part) domain.now.origin writer.new state.new }
{
    let plan = first_plan(domain, writer, state, key);
    let reply = store_by::<D, F, Brand>(domain, writer, state, plan, key, value, true)?;
    count_update(writer);
    Ok(reply)
}

/// Removes the key, as `ck_ht_remove_spmc`, and answers the value that it had, or that it was missing.
pub fn remove<D: Within<HtClient>, F>(
    domain: &Domain<D>,
    writer: &mut Writer<D, F>,
    state: &mut HtState,
    key: Key,
) -> Reply
    requires table { table writer.old.token ≡ domain.now }
    requires calls { writer.old.calls < 2 ^ 40 }
    requires ready { Ready (host D.meaning D.place D.part) domain.now.origin writer.old state.old }
    ensures same { writer.new ≡ record writer.old { token = writer.new.token; calls = writer.old.calls + 1; tally = writer.old.tally + 1 } }
    ensures pending { (epochs writer.new.token).pending ≡ (epochs writer.old.token).pending }
    ensures items { (unreturned (epochs writer.new.token) writer.new.waiting) ≡ (unreturned (epochs writer.old.token) writer.old.waiting) }
    ensures root { state.new.root ≡ state.old.root }
    ensures table { table writer.new.token ≡ table writer.old.token }
    ensures reply { result ≡ (step nat_cmp most (map_after (knows (host D.meaning D.place D.part) domain.now.origin writer.old.token).log) (Del key)).1 }
    ensures log { (knows (host D.meaning D.place D.part) domain.now.origin writer.new.token).log ≡ (knows (host D.meaning D.place D.part) domain.now.origin writer.old.token).log ++ record { update = Del key; reply = result } ∷ [] }
    ensures steps { (p : WriterState) → WriterIs (host D.meaning D.place D.part) domain.now.origin writer.old.token p → (ss : List Step) × RemoveSteps (lies (host D.meaning D.place D.part) domain.now.origin) p (plan_now (lies (host D.meaning D.place D.part) domain.now.origin) p key) ss × (writer.new.token ≡ adding writer.old.token (opened (removing ∷ key ∷ []) ss)) }
    ensures ready { Ready (host D.meaning D.place D.part) domain.now.origin writer.new state.new }
{
    let plan = first_plan(domain, writer, state, key);
    let reply = remove_by::<D, F, Brand>(domain, writer, state, plan, key);
    count_update(writer);
    reply
}
