//! The steps of a rebuild: stores in a region that isn't published, the store of its root, and the retirement of the one that it replaces. The
//! four stores of a pair are those of an update too.
ghost use Rattle.std.specs.Prelude.{◌≡◌, ℕ, ◌+◌, ◌-◌, ◌*◌, ◌^◌, ◌<◌, ◌≤◌, List, [], ◌∷◌, ◌++◌, length, cond, nat_lt, map};
ghost use Rattle.ck_run.specs.declared.account.Step.TheVariants.{Load, Store};
ghost use Rattle.ck_run.specs.Run.{entry, further, handing};
ghost use Rattle.ck_run.specs.Tokens.{table, adding};
ghost use Rattle.ck_epoch.specs.State.{queue, state};
ghost use Rattle.ck_epoch.specs.Ends.{IsDomainToken};
ghost use Rattle.ck_history.specs.declared.log.LogEntry.{LogEntry};
ghost use Rattle.ck_slots.specs.Slots.{IsFirst, HasState};
ghost use Rattle.ck_htplan.specs.Region.{order_of, view_of};
ghost use Rattle.ck_htlaw.specs.Host.{host, lies};
ghost use Rattle.ck_htlaw.specs.Known.{IsRoot, knows};
ghost use Rattle.ck_htlaw.specs.Layout.{log_of, region_item};
ghost use Rattle.ck_htlaw.specs.Regions.{IsReplaced};
ghost use Rattle.ck_htlaw.specs.Stages.{idle};
ghost use Rattle.ck_htlaw.specs.Table.{WriterState, released, released_log};
ghost use Rattle.ck_htwrite.specs.Rebuild.{BeginsRebuildAt, clear_steps, pair_steps};
ghost use Rattle.ck_htwrite.specs.Writes.{counters_in, opened, IsFreeBy, MayMake, MayStep, Steps, WriterAt, WriterIs};

use crate::writes::store;
use ck_epoch::{Domain, Item, Within, Writer};
use ck_htlaw::HtClient;
use ck_htplan::{EMPTY, FULL, HIGH, LOW, SLOT_WORDS, STATE, VALUE};
use ck_probe::slot;
use ck_run::{Continues, Opens};

// The first step of a rebuild into the region of this root, which is free: it clears the first slot. `O` has the name and the arguments of
// the call.
pub(crate) fn begin<D: Within<HtClient>, F, O: Opens>(
    domain: &Domain<D>,
    writer: &mut Writer<D, F>,
    root: u64,
)
    requires table { table writer.old.token ≡ domain.now }
    requires root { IsRoot (counters_in (host D.meaning D.place D.part) domain.now.origin) root }
    requires due { MayStep (host D.meaning D.place D.part) domain.now.origin writer.old.token (entry O.opens (Store ((lies (host D.meaning D.place D.part) domain.now.origin).word root 0 0) 0)) }
    ensures step { Steps (host D.meaning D.place D.part) domain.now.origin writer.old (entry O.opens (Store ((lies (host D.meaning D.place D.part) domain.now.origin).word root 0 0) 0) ∷ []) writer.new }
{
    store::<D, F, O>(domain, writer, root / 32, EMPTY);
}

// Clears all slots of the new region but the first, which the call's first step cleared. A region that was used before has old states.
pub(crate) fn clear_rest<D: Within<HtClient>, F>(
    domain: &Domain<D>,
    writer: &mut Writer<D, F>,
    root: u64,
)
    requires table { table writer.old.token ≡ domain.now }
    requires root { IsRoot (counters_in (host D.meaning D.place D.part) domain.now.origin) root }
    requires due { MayMake (host D.meaning D.place D.part) domain.now.origin writer.old.token (map further (clear_steps (lies (host D.meaning D.place D.part) domain.now.origin) root 1 (2 ^ log_of root - 1))) }
    requires token { IsDomainToken D.meaning writer.old.token }
    ensures steps { Steps (host D.meaning D.place D.part) domain.now.origin writer.old (map further (clear_steps (lies (host D.meaning D.place D.part) domain.now.origin) root 1 (2 ^ log_of root - 1))) writer.new }
{
    let at = root / 32;
    for i in 1..1 << (root % 32) {
        store::<D, F, Continues>(domain, writer, at + SLOT_WORDS * i + STATE, EMPTY);
    }
}

// Stores a pair in the slot `at` of the region of this root: its value, then its key, and it is full then, so that a look that loaded 1 finds all
// its words.
pub(crate) fn store_pair<D: Within<HtClient>, F, O: Opens>(
    domain: &Domain<D>,
    writer: &mut Writer<D, F>,
    root: u64,
    at: u64,
    low: u64,
    high: u64,
    value: u64,
)
    requires table { table writer.old.token ≡ domain.now }
    requires root { IsRoot (counters_in (host D.meaning D.place D.part) domain.now.origin) root }
    requires slot { at < 2 ^ log_of root }
    requires due { MayMake (host D.meaning D.place D.part) domain.now.origin writer.old.token (opened O.opens (pair_steps (lies (host D.meaning D.place D.part) domain.now.origin) root at low high value)) }
    ensures steps { Steps (host D.meaning D.place D.part) domain.now.origin writer.old (opened O.opens (pair_steps (lies (host D.meaning D.place D.part) domain.now.origin) root at low high value)) writer.new }
{
    let first = root / 32 + SLOT_WORDS * at;
    store::<D, F, O>(domain, writer, first + VALUE, value);
    store::<D, F, Continues>(domain, writer, first + LOW, low);
    store::<D, F, Continues>(domain, writer, first + HIGH, high);
    store::<D, F, Continues>(domain, writer, first + STATE, FULL);
}

// Publishes the new region: looks that load the root from here on are in it.
pub(crate) fn publish<D: Within<HtClient>, F>(
    domain: &Domain<D>,
    writer: &mut Writer<D, F>,
    root: u64,
)
    requires table { table writer.old.token ≡ domain.now }
    requires due { MayStep (host D.meaning D.place D.part) domain.now.origin writer.old.token (further (Store (lies (host D.meaning D.place D.part) domain.now.origin).base root)) }
    ensures step { Steps (host D.meaning D.place D.part) domain.now.origin writer.old (further (Store (lies (host D.meaning D.place D.part) domain.now.origin).base root) ∷ []) writer.new }
{
    store::<D, F, Continues>(domain, writer, 0, root);
}

// Retires the region that was replaced. Looks may still be in it, so its words stay until they are over.
pub(crate) fn retire<D: Within<HtClient>, F>(
    domain: &Domain<D>,
    writer: &mut Writer<D, F>,
    old: u64,
)
    requires table { table writer.old.token ≡ domain.now }
    requires calls { writer.old.calls < 2 ^ 40 }
    requires room { length (state writer.old.token).pending + length writer.old.waiting < writer.old.room }
    requires root { IsRoot (counters_in (host D.meaning D.place D.part) domain.now.origin) old }
    requires due { (p : WriterState) × WriterIs (host D.meaning D.place D.part) domain.now.origin writer.old.token p × IsReplaced p.stage old }
    ensures step { writer.new ≡ record writer.old {
      token = adding writer.old.token (handing [] ((lies (host D.meaning D.place D.part) domain.now.origin).item old) (Load 0 (state writer.old.token).epoch) ∷ []);
      calls = writer.old.calls + 1;
    } }
    ensures at { (p : WriterState) (due : LogEntry ℕ) (told : List (LogEntry ℕ)) → WriterAt (knows (host D.meaning D.place D.part) domain.now.origin writer.old.token) p due told → IsReplaced p.stage old
        → WriterAt (knows (host D.meaning D.place D.part) domain.now.origin writer.new.token) (record p { stage = released p.stage; log = released_log p.stage p.log }) due (told ++ cond (nat_lt p.log (released_log p.stage p.log)) (due ∷ []) []) }
    ensures pending { queue (state writer.new.token).pending ≡ queue (state writer.old.token).pending ++ record { item = region_item (D.place domain.now.origin.config.client) old; epoch = (state writer.old.token).epoch } ∷ [] }
    ensures same { (state writer.new.token).dispatched ≡ (state writer.old.token).dispatched }
    ensures part { IsDomainToken D.meaning writer.new.token }
{
    let at = domain.client().base() + old / 32;
    let item = Item {
        at,
        log: old % 32 + 2,
    };
    domain.call::<Continues, F>(writer, item);
}

// The first slot of state 0 in the probe order of `h`, where some slot has state 0.
pub(crate) fn first_empty(words: &[u64], c: u64, h: u64) -> u64
    requires c_low { 3 ≤ c }
    requires c_high { c ≤ 19 }
    requires length { length words.now ≡ 2 ^ (c + 2) }
    requires empty { (s : ℕ) × (s < 2 ^ c) × ((view_of words.now).state s ≡ 0) }
    ensures { (hash : ℕ → ℕ) (k : ℕ) → hash k ≡ h → IsFirst (order_of c hash) k (HasState (view_of words.now) 0) result }
{
    for i in 0..1 << c {
        let at = slot(h, c, i);
        if words[(SLOT_WORDS * at + STATE) as usize] == EMPTY {
            return at;
        }
    }
    unreachable!()
}
