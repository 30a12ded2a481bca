//! A rebuild of the map: the region that is taken is built, and it replaces the present one.
ghost use Rattle.std.specs.Prelude.{◌≡◌, ◌↔◌, ℕ, IfOk, IfErr, IsErr, ◌+◌, ◌*◌, ◌^◌, ◌<◌, ◌≤◌, ◌⊎◌, List, [], ◌∷◌, ◌++◌, length, map, slice_index, vec_capacity};
ghost use Rattle.ck_run.specs.declared.account.Entry.{Entry};
ghost use Rattle.ck_run.specs.declared.account.Step.{Step};
ghost use Rattle.ck_run.specs.declared.account.Step.TheVariants.{Load, Store};
ghost use Rattle.ck_run.specs.Run.{further, handing};
ghost use Rattle.ck_run.specs.Tokens.{table, adding};
ghost use Rattle.ck_epoch.specs.declared.item.Retired.{Retired};
ghost use Rattle.ck_epoch.specs.State.{queue, state as epochs_of};
ghost use Rattle.ck_epoch.specs.Ends.{IsDomainToken};
ghost use Rattle.ck_history.specs.declared.log.LogEntry.{LogEntry};
ghost use Rattle.ck_htlaw.specs.Actions.{answer_to};
ghost use Rattle.ck_htlaw.specs.Calls.{opening_of};
ghost use Rattle.ck_htlaw.specs.Host.{host, lies};
ghost use Rattle.ck_htlaw.specs.Known.{knows};
ghost use Rattle.ck_htlaw.specs.Layout.{log_of, region_item};
ghost use Rattle.ck_htlaw.specs.Stages.{idle, after_rebuild};
ghost use Rattle.ck_htlaw.specs.Table.{WriterState};
ghost use Rattle.ck_htwrite.specs.Rebuild.{BeginsRebuildAt, CanHoldAll, CopiesAt, GoesOnAfter, EndsAfter, HoldKeysOnce, Rebuilt, adopted_lists, rebuild_entries};
ghost use Rattle.ck_htplan.specs.Region.{view_of};
ghost use Rattle.ck_arena.specs.Arena.{unreturned, HasNoneFree};
ghost use Rattle.ck_htwrite.specs.Arena.{AddsRegion, IsKept};
ghost use Rattle.ck_htwrite.specs.State.{IsReady, Reflects};
ghost use Rattle.ck_htwrite.specs.Writes.{counters_in, opened, IsFreeBy, Steps, WriterAt, WriterIs};

use crate::copies::copy_all;
use crate::rebuild::{begin, clear_rest, publish, retire};
use crate::state::{HtState, Need};
use ck_epoch::{Domain, Within, Writer};
use ck_htlaw::HtClient;
use ck_run::Opens;
use std::mem::swap;

// Makes a list of so many zeros of one that has room for them.
fn blank(words: &mut Vec<u64>, count: usize)
    requires { count ≤ vec_capacity words.old }
    ensures length { length words.new.items ≡ count }
    ensures zeros { (i : ℕ) → slice_index words.new.items i ≡ 0 }
    ensures room { vec_capacity words.old ≤ vec_capacity words.new }
{
    words.clear();
    let Ok(()) = words.resize(count, 0) else {
        unreachable!();
    };
}

// Builds the region of this root, which is free, with all pairs of the present one. `O` has the name and the arguments of the call.
pub(crate) fn build<D: Within<HtClient>, F, O: Opens>(
    domain: &Domain<D>,
    writer: &mut Writer<D, F>,
    state: &mut HtState,
    root: u64,
)
    requires table { table writer.old.token ≡ domain.now }
    requires can { CanHoldAll (counters_in (host D.meaning D.place D.part) domain.now.origin) state.old root }
    requires due { (p : WriterState) × WriterIs (host D.meaning D.place D.part) domain.now.origin writer.old.token p × (p.stage ≡ idle) × Reflects (counters_in (host D.meaning D.place D.part) domain.now.origin) (lies (host D.meaning D.place D.part) domain.now.origin) p state.old × BeginsRebuildAt (lies (host D.meaning D.place D.part) domain.now.origin) p O.opens root × IsFreeBy (host D.meaning D.place D.part) domain.now.origin writer.old.token p root }
    ensures steps { (ss : List Step) × Steps (host D.meaning D.place D.part) domain.now.origin writer.old (opened O.opens (Store ((lies (host D.meaning D.place D.part) domain.now.origin).word root 0 0) 0 ∷ ss)) writer.new }
    ensures state { state.new ≡ record state.old { spare = state.new.spare } }
    ensures at { (p : WriterState) (due : LogEntry ℕ) (told : List (LogEntry ℕ)) → WriterAt (knows (host D.meaning D.place D.part) domain.now.origin writer.old.token) p due told → p.stage ≡ idle → Reflects (counters_in (host D.meaning D.place D.part) domain.now.origin) (lies (host D.meaning D.place D.part) domain.now.origin) p state.old → BeginsRebuildAt (lies (host D.meaning D.place D.part) domain.now.origin) p O.opens root
        → CopiesAt (counters_in (host D.meaning D.place D.part) domain.now.origin) (lies (host D.meaning D.place D.part) domain.now.origin) (knows (host D.meaning D.place D.part) domain.now.origin writer.new.token) p O.opens (answer_to (lies (host D.meaning D.place D.part) domain.now.origin) p (opening_of O.opens)) told state.new root (2 ^ log_of state.old.root) }
{
    begin::<D, F, O>(domain, writer, root);
    clear_rest(domain, writer, root);
    blank(&mut state.spare, 4 << (root % 32));
    copy_all(domain, writer, state, root);
}

// Publishes the region of this root, which is built, retires the one that it replaces, and takes its copy for the lists. The root is stored
// before the old region is retired: a look that begins in between must not be in a retired one.
pub(crate) fn replace<D: Within<HtClient>, F>(
    domain: &Domain<D>,
    writer: &mut Writer<D, F>,
    state: &mut HtState,
    root: u64,
)
    requires table { table writer.old.token ≡ domain.now }
    requires calls { writer.old.calls < 2 ^ 40 }
    requires room { length (epochs_of writer.old.token).pending + length writer.old.waiting < writer.old.room }
    requires can { CanHoldAll (counters_in (host D.meaning D.place D.part) domain.now.origin) state.old root }
    requires due { (p : WriterState) × (call : List ℕ) × (due : LogEntry ℕ) × (told : List (LogEntry ℕ)) × CopiesAt (counters_in (host D.meaning D.place D.part) domain.now.origin) (lies (host D.meaning D.place D.part) domain.now.origin) (knows (host D.meaning D.place D.part) domain.now.origin writer.old.token) p call due told state.old root (2 ^ log_of state.old.root)
        × (GoesOnAfter (lies (host D.meaning D.place D.part) domain.now.origin) call ⊎ EndsAfter (lies (host D.meaning D.place D.part) domain.now.origin) call) }
    ensures state { state.new ≡ adopted_lists state.old root }
    ensures steps { (n : ℕ) × (writer.new ≡ record writer.old {
      token = adding writer.old.token (further (Store (lies (host D.meaning D.place D.part) domain.now.origin).base root) ∷ handing [] ((lies (host D.meaning D.place D.part) domain.now.origin).item state.old.root) (Load 0 n) ∷ []);
      calls = writer.old.calls + 1;
    }) }
    ensures retired { (k : Retired) × (k.item ≡ region_item (D.place domain.now.origin.config.client) state.old.root) × (queue (epochs_of writer.new.token).pending ≡ queue (epochs_of writer.old.token).pending ++ k ∷ []) × ((epochs_of writer.new.token).dispatched ≡ (epochs_of writer.old.token).dispatched) }
    ensures goes_on { (p : WriterState) (call : List ℕ) (due : LogEntry ℕ) (told : List (LogEntry ℕ)) → CopiesAt (counters_in (host D.meaning D.place D.part) domain.now.origin) (lies (host D.meaning D.place D.part) domain.now.origin) (knows (host D.meaning D.place D.part) domain.now.origin writer.old.token) p call due told state.old root (2 ^ log_of state.old.root)
        → GoesOnAfter (lies (host D.meaning D.place D.part) domain.now.origin) call → Rebuilt (counters_in (host D.meaning D.place D.part) domain.now.origin) (lies (host D.meaning D.place D.part) domain.now.origin) (knows (host D.meaning D.place D.part) domain.now.origin writer.new.token) (after_rebuild call) due told state.new }
    ensures ends { (p : WriterState) (call : List ℕ) (due : LogEntry ℕ) (told : List (LogEntry ℕ)) → CopiesAt (counters_in (host D.meaning D.place D.part) domain.now.origin) (lies (host D.meaning D.place D.part) domain.now.origin) (knows (host D.meaning D.place D.part) domain.now.origin writer.old.token) p call due told state.old root (2 ^ log_of state.old.root)
        → EndsAfter (lies (host D.meaning D.place D.part) domain.now.origin) call → Rebuilt (counters_in (host D.meaning D.place D.part) domain.now.origin) (lies (host D.meaning D.place D.part) domain.now.origin) (knows (host D.meaning D.place D.part) domain.now.origin writer.new.token) idle due (told ++ due ∷ []) state.new }
    ensures token { IsDomainToken D.meaning writer.new.token }
{
    let old = state.root;
    publish(domain, writer, root);
    retire(domain, writer, old);
    swap(&mut state.words, &mut state.spare);
    state.root = root;
    state.tombstones = 0;
}

// Rebuilds the map into a region of `2 ^ log` slots. Need, and nothing changed, exactly where no region of that length is free. `O` has the
// name and the arguments of the call, which goes on or ends then.
pub(crate) fn rebuild<D: Within<HtClient>, F, O: Opens>(
    domain: &Domain<D>,
    writer: &mut Writer<D, F>,
    state: &mut HtState,
    log: u64,
) -> Result<(), Need>
    requires table { table writer.old.token ≡ domain.now }
    requires calls { writer.old.calls < 2 ^ 40 }
    requires room { length (epochs_of writer.old.token).pending + length writer.old.waiting < writer.old.room }
    requires least { 3 ≤ log }
    requires most { log ≤ 19 }
    requires fits { state.old.keys + 2 ≤ 2 ^ log }
    requires once { HoldKeysOnce (view_of state.old.words.items) (2 ^ log_of state.old.root) }
    requires arena { IsKept (counters_in (host D.meaning D.place D.part) domain.now.origin) (D.place domain.now.origin.config.client) state.old.root (unreturned (epochs_of writer.old.token) writer.old.waiting) state.old.arena }
    requires due { (r : IsReady (host D.meaning D.place D.part) domain.now.origin writer.old.token state.old) × ((root : ℕ) → log_of root ≡ log → BeginsRebuildAt (lies (host D.meaning D.place D.part) domain.now.origin) r.is_writer O.opens root)
        × (GoesOnAfter (lies (host D.meaning D.place D.part) domain.now.origin) O.opens ⊎ EndsAfter (lies (host D.meaning D.place D.part) domain.now.origin) O.opens) }
    ensures none { IsErr result ↔ HasNoneFree state.old.arena (log + 2) }
    ensures need { IfErr result (λ need. (need ≡ record { shelf = 0; log = log + 2 }) × (writer.new ≡ writer.old) × (state.new ≡ state.old)) }
    ensures steps { IfOk result (λ u. (n : ℕ) × (ss : List Step) × (writer.new ≡ record writer.old { token = adding writer.old.token (rebuild_entries (lies (host D.meaning D.place D.part) domain.now.origin) O.opens state.old.root state.new.root ss n); calls = writer.old.calls + 1 })) }
    ensures retired { IfOk result (λ u. length (epochs_of writer.new.token).pending ≡ length (epochs_of writer.old.token).pending + 1) }
    ensures items { IfOk result (λ u. AddsRegion (counters_in (host D.meaning D.place D.part) domain.now.origin) (D.place domain.now.origin.config.client) (unreturned (epochs_of writer.old.token) writer.old.waiting) (unreturned (epochs_of writer.new.token) writer.new.waiting)) }
    ensures lists { IfOk result (λ u. (state.new.keys ≡ state.old.keys) × (state.new.tombstones ≡ 0) × (log_of state.new.root ≡ log)) }
    ensures goes_on { IfOk result (λ u. (r : IsReady (host D.meaning D.place D.part) domain.now.origin writer.old.token state.old) → ((root : ℕ) → log_of root ≡ log → BeginsRebuildAt (lies (host D.meaning D.place D.part) domain.now.origin) r.is_writer O.opens root) → GoesOnAfter (lies (host D.meaning D.place D.part) domain.now.origin) O.opens
        → Rebuilt (counters_in (host D.meaning D.place D.part) domain.now.origin) (lies (host D.meaning D.place D.part) domain.now.origin) (knows (host D.meaning D.place D.part) domain.now.origin writer.new.token) (after_rebuild O.opens) (answer_to (lies (host D.meaning D.place D.part) domain.now.origin) r.is_writer (opening_of O.opens)) (knows (host D.meaning D.place D.part) domain.now.origin writer.old.token).log state.new) }
    ensures ends { IfOk result (λ u. (r : IsReady (host D.meaning D.place D.part) domain.now.origin writer.old.token state.old) → ((root : ℕ) → log_of root ≡ log → BeginsRebuildAt (lies (host D.meaning D.place D.part) domain.now.origin) r.is_writer O.opens root) → EndsAfter (lies (host D.meaning D.place D.part) domain.now.origin) O.opens
        → Rebuilt (counters_in (host D.meaning D.place D.part) domain.now.origin) (lies (host D.meaning D.place D.part) domain.now.origin) (knows (host D.meaning D.place D.part) domain.now.origin writer.new.token) idle (answer_to (lies (host D.meaning D.place D.part) domain.now.origin) r.is_writer (opening_of O.opens)) ((knows (host D.meaning D.place D.part) domain.now.origin writer.old.token).log ++ answer_to (lies (host D.meaning D.place D.part) domain.now.origin) r.is_writer (opening_of O.opens) ∷ []) state.new) }
    ensures arena { IfOk result (λ u. IsKept (counters_in (host D.meaning D.place D.part) domain.now.origin) (D.place domain.now.origin.config.client) state.new.root (unreturned (epochs_of writer.new.token) writer.new.waiting) state.new.arena) }
    ensures token { IfOk result (λ u. IsDomainToken D.meaning writer.new.token) }
{
    let root = state.take(log)?;
    build::<D, F, O>(domain, writer, state, root);
    replace(domain, writer, state, root);
    Ok(())
}
