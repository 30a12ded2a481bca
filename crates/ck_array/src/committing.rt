//! The commit of the pending list.
ghost use Rattle.std.specs.Prelude.{◌≡◌, ℕ, ◌+◌, ◌<◌, ◌^◌, ◌↔◌, List, [], ◌∷◌, ◌++◌, length, IfSome, IfNone, IsNone};
ghost use Rattle.ck_run.specs.declared.account.Step.TheVariants.{Load, Store};
ghost use Rattle.ck_run.specs.Run.{entry, handing};
ghost use Rattle.ck_run.specs.Tokens.{table, adding};
ghost use Rattle.ck_epoch.specs.declared.item.Item.{Item as ItemOf};
ghost use Rattle.ck_epoch.specs.State.{queue, state as epochs};
ghost use Rattle.ck_epoch.specs.Calls.{SameItemsAndEpoch};
ghost use Rattle.ck_epoch.specs.Ends.{IsDomainToken};
ghost use Rattle.ck_epoch.specs.Within.{item_from};
ghost use Rattle.ck_history.specs.declared.edit.Edit.{Edit as EditOf};
ghost use Rattle.ck_history.specs.declared.edit.Edit.TheVariants.{Commit};
ghost use Rattle.ck_history.specs.declared.edit.EditReply.TheVariants.{Committed};
ghost use Rattle.ck_history.specs.declared.edit.TheConstants.{MOST_MEMBERS};
ghost use Rattle.ck_history.specs.Lists.{list_step, empty_lists, lists_after_from};
ghost use Rattle.ck_arena.specs.Arena.{unreturned, HasNoneFree};
ghost use Rattle.ck_arraylaw.specs.Array.{WriterState, between_calls, replaced, writer as writes, written};
ghost use Rattle.ck_arraylaw.specs.Client.{logged};
ghost use Rattle.ck_arraylaw.specs.Host.{host, base_word};
ghost use Rattle.ck_arraylaw.specs.Known.{knows};
ghost use Rattle.ck_arraylaw.specs.Layout.{array_words, log_for, IsRegion, IsFreeRegion};
ghost use Rattle.ck_arraylaw.specs.Regions.{place_in};
ghost use Rattle.ck_array.specs.Writes.{commit_entries, filling_by, idle, member_stores, IsReady, IsStoreDue};

use crate::state::ArrayState;
use ck_arraylaw::{ArrayClient, ROOT};
use ck_epoch::{Domain, Item, Within, Writer};
use ck_history::{Edit, EditReply};
use ck_run::{Continues, Opens};
use std::marker::Brand;

// Stores a number in the array's word `at`. `O` has the name of the call that this step opens, if it opens one.
fn store<D: Within<ArrayClient>, F, O: Opens>(
    domain: &Domain<D>,
    writer: &mut Writer<D, F>,
    at: u64,
    value: u64,
)
    requires table { table writer.old.token ≡ domain.now }
    requires word { at < array_words }
    requires due { IsStoreDue (host D.meaning D.place D.part) domain.now.origin writer.old.token O.opens at value }
    ensures step { writer.new ≡ record writer.old { token = adding writer.old.token (entry O.opens (Store (base_word (host D.meaning D.place D.part) domain.now.origin + at) value) ∷ []) } }
    ensures local { (p : WriterState) → knows (host D.meaning D.place D.part) domain.now.origin writer.old.token ≡ writes p → knows (host D.meaning D.place D.part) domain.now.origin writer.new.token ≡ writes (written (base_word (host D.meaning D.place D.part) domain.now.origin) p O.opens p.stage (Store (base_word (host D.meaning D.place D.part) domain.now.origin + at) value)) }
    ensures same { SameItemsAndEpoch writer.old.token writer.new.token }
    ensures part { IsDomainToken D.meaning writer.new.token }
{
    let client = domain.client();
    domain.write::<O, F>(writer, client.base() + at, value);
}

// Stores the members in the new region, behind its first word.
fn fill<D: Within<ArrayClient>, F>(
    domain: &Domain<D>,
    writer: &mut Writer<D, F>,
    region: Item,
    members: &[u64],
)
    requires table { table writer.old.token ≡ domain.now }
    requires inside { IsRegion region }
    requires room { length members.now < 2 ^ region.log }
    requires due { (log : List EditOf) × (present : ItemOf) × (knows (host D.meaning D.place D.part) domain.now.origin writer.old.token ≡ writes (filling_by log present region 0)) × ((lists_after_from empty_lists log).pending ≡ members.now) }
    requires part { IsDomainToken D.meaning writer.old.token }
    ensures steps { writer.new ≡ record writer.old { token = adding writer.old.token (member_stores (base_word (host D.meaning D.place D.part) domain.now.origin + region.at + 1) members.now (length members.now)) } }
    ensures local { (log : List EditOf) (present : ItemOf) → knows (host D.meaning D.place D.part) domain.now.origin writer.old.token ≡ writes (filling_by log present region 0) → (lists_after_from empty_lists log).pending ≡ members.now → knows (host D.meaning D.place D.part) domain.now.origin writer.new.token ≡ writes (filling_by log present region (length members.now)) }
    ensures same { SameItemsAndEpoch writer.old.token writer.new.token }
    ensures part { IsDomainToken D.meaning writer.new.token }
{
    for i in 0..members.len() {
        store::<D, F, Continues>(domain, writer, region.at + 1 + i as u64, members[i]);
    }
}

// Retires the region that was replaced. Readers may still be in it, so its words stay until they are over.
fn retire<D: Within<ArrayClient>, F>(domain: &Domain<D>, writer: &mut Writer<D, F>, old: Item)
    requires table { table writer.old.token ≡ domain.now }
    requires calls { writer.old.calls < 2 ^ 40 }
    requires room { length (epochs writer.old.token).pending + length writer.old.waiting < writer.old.room }
    requires inside { IsRegion old }
    requires due { (p : WriterState) × (knows (host D.meaning D.place D.part) domain.now.origin writer.old.token ≡ writes p) × (p.stage ≡ replaced old) }
    ensures step { writer.new ≡ record writer.old {
      token = adding writer.old.token (handing [] ((place_in (host D.meaning D.place D.part) domain.now.origin + old.at) ∷ old.log ∷ []) (Load 0 (epochs writer.old.token).epoch) ∷ []);
      calls = writer.old.calls + 1;
    } }
    ensures local { (p : WriterState) → knows (host D.meaning D.place D.part) domain.now.origin writer.old.token ≡ writes p → p.stage ≡ replaced old → knows (host D.meaning D.place D.part) domain.now.origin writer.new.token ≡ writes (record p { log = p.log ++ Commit ∷ []; stage = between_calls }) }
    ensures pending { queue (epochs writer.new.token).pending ≡ queue (epochs writer.old.token).pending ++ record { item = item_from (place_in (host D.meaning D.place D.part) domain.now.origin) old; epoch = (epochs writer.old.token).epoch } ∷ [] }
    ensures same { (epochs writer.new.token).dispatched ≡ (epochs writer.old.token).dispatched }
    ensures part { IsDomainToken D.meaning writer.new.token }
{
    let at = domain.client().base() + old.at;
    let item = Item { at, log: old.log };
    domain.call::<Continues, F>(writer, item);
}

// Writes the members into a region that is free, publishes it, and retires the old one. The root is stored behind all members: a reader that
// loads it finds them. And it is stored before the old region is retired: a reader that begins in between must not be in a retired one.
fn publish<D: Within<ArrayClient>, F>(
    domain: &Domain<D>,
    writer: &mut Writer<D, F>,
    members: &[u64],
    region: Item,
    old: Item,
)
    requires table { table writer.old.token ≡ domain.now }
    requires calls { writer.old.calls < 2 ^ 40 }
    requires room { length (epochs writer.old.token).pending + length writer.old.waiting < writer.old.room }
    requires inside { IsRegion region × IsRegion old }
    requires long { (region.log ≡ log_for (length members.now)) × (length members.now < 2 ^ region.log) }
    requires due { (log : List EditOf) × (knows (host D.meaning D.place D.part) domain.now.origin writer.old.token ≡ writes (idle log old)) × ((lists_after_from empty_lists log).pending ≡ members.now) }
    requires free { IsFreeRegion (place_in (host D.meaning D.place D.part) domain.now.origin) old region (epochs writer.old.token).pending }
    ensures steps { (epoch : ℕ) × (writer.new ≡ record writer.old { token = adding writer.old.token (commit_entries (host D.meaning D.place D.part) domain.now.origin members.now region old epoch); calls = writer.old.calls + 1 }) }
    ensures local { (log : List EditOf) → knows (host D.meaning D.place D.part) domain.now.origin writer.old.token ≡ writes (idle log old) → (lists_after_from empty_lists log).pending ≡ members.now → knows (host D.meaning D.place D.part) domain.now.origin writer.new.token ≡ writes (idle (log ++ Commit ∷ []) region) }
    ensures pending { (epoch : ℕ) × (queue (epochs writer.new.token).pending ≡ queue (epochs writer.old.token).pending ++ record { item = item_from (place_in (host D.meaning D.place D.part) domain.now.origin) old; epoch = epoch } ∷ []) }
    ensures same { (epochs writer.new.token).dispatched ≡ (epochs writer.old.token).dispatched }
    ensures part { IsDomainToken D.meaning writer.new.token }
{
    store::<D, F, Brand>(domain, writer, region.at, members.len() as u64);
    fill(domain, writer, region, members);
    store::<D, F, Continues>(domain, writer, ROOT, region.at);
    retire(domain, writer, old);
}

/// Makes the pending list the committed one: it writes it into a region of its own, and publishes that. None, and nothing changed, exactly where
/// no region of the length that it takes is free.
pub fn commit<D: Within<ArrayClient>, F>(
    domain: &Domain<D>,
    writer: &mut Writer<D, F>,
    state: &mut ArrayState,
) -> Option<EditReply>
    requires table { table writer.old.token ≡ domain.now }
    requires calls { writer.old.calls < 2 ^ 40 }
    requires room { length (epochs writer.old.token).pending + length writer.old.waiting < writer.old.room }
    requires ready { IsReady (host D.meaning D.place D.part) domain.now.origin writer.old state.old }
    ensures none { IsNone result ↔ HasNoneFree state.old.arena (log_for (length state.old.lists.pending)) }
    ensures unchanged { IfNone result ((writer.new ≡ writer.old) × (state.new ≡ state.old)) }
    ensures reply { IfSome result (λ r. r ≡ Committed) }
    ensures steps { IfSome result (λ r. (epoch : ℕ) × (writer.new ≡ record writer.old { token = adding writer.old.token (commit_entries (host D.meaning D.place D.part) domain.now.origin state.old.lists.pending state.new.region state.old.region epoch); calls = writer.old.calls + 1 })) }
    ensures lists { IfSome result (λ r. state.new.lists ≡ (list_step state.old.lists Commit).0) }
    ensures log { IfSome result (λ r. logged (knows (host D.meaning D.place D.part) domain.now.origin writer.new.token) ≡ logged (knows (host D.meaning D.place D.part) domain.now.origin writer.old.token) ++ Commit ∷ []) }
    ensures items { IfSome result (λ r. (epoch : ℕ) × (unreturned (epochs writer.new.token) writer.new.waiting ≡ unreturned (epochs writer.old.token) writer.old.waiting ++ record { item = item_from (place_in (host D.meaning D.place D.part) domain.now.origin) state.old.region; epoch = epoch } ∷ [])) }
    ensures ready { IsReady (host D.meaning D.place D.part) domain.now.origin writer.new state.new }
{
    let region = state.take()?;
    publish(domain, writer, state.lists.pending(), region, state.region);
    state.region = region;
    Some(state.lists.apply(Edit::Commit))
}
