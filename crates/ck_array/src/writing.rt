//! The writer's calls.
ghost use Rattle.std.specs.Prelude.{◌≡◌, ◌≢◌, ℕ, ◌+◌, ◌<◌, ◌≤◌, List, [], ◌∷◌, ◌++◌, length};
ghost use Rattle.ck_run.specs.declared.account.Step.TheVariants.{Load};
ghost use Rattle.ck_run.specs.Run.{entry};
ghost use Rattle.ck_run.specs.Tokens.{table, adding};
ghost use Rattle.ck_epoch.specs.Calls.{SameItemsAndEpoch};
ghost use Rattle.ck_epoch.specs.Ends.{IsDomainToken};
ghost use Rattle.ck_history.specs.declared.edit.Edit.TheVariants.{Add, Drop, Commit};
ghost use Rattle.ck_history.specs.Lists.{list_step};
ghost use Rattle.ck_arraylaw.specs.Host.{host, base_word};
ghost use Rattle.ck_arraylaw.specs.Client.{logged};
ghost use Rattle.ck_arraylaw.specs.Known.{knows};
ghost use Rattle.ck_array.specs.Writes.{opens_of, IsReady};

use crate::state::ArrayState;
use ck_arraylaw::{ArrayClient, ROOT};
use ck_epoch::{Domain, Within, Writer};
use ck_history::{Edit, EditReply};
use ck_run::Opens;
use std::marker::Brand;

// Makes an edit of the pending list. Its load of the root is where it takes place. `O` has the name and the argument of the call.
pub(crate) fn edit_pending<D: Within<ArrayClient>, F, O: Opens>(
    domain: &Domain<D>,
    writer: &mut Writer<D, F>,
    state: &mut ArrayState,
    e: Edit,
) -> EditReply
    requires table { table writer.old.token ≡ domain.now }
    requires ready { IsReady (host D.meaning D.place D.part) domain.now.origin writer.old state.old }
    requires pending { e ≢ Commit }
    requires name { O.opens ≡ opens_of e }
    ensures steps { (root : ℕ) × (writer.new ≡ record writer.old { token = adding writer.old.token (entry (opens_of e) (Load (base_word (host D.meaning D.place D.part) domain.now.origin) root) ∷ []) }) }
    ensures reply { result ≡ (list_step state.old.lists e).1 }
    ensures lists { state.new ≡ record state.old { lists = (list_step state.old.lists e).0 } }
    ensures same { SameItemsAndEpoch writer.old.token writer.new.token }
    ensures log { logged (knows (host D.meaning D.place D.part) domain.now.origin writer.new.token) ≡ logged (knows (host D.meaning D.place D.part) domain.now.origin writer.old.token) ++ e ∷ [] }
    ensures ready { IsReady (host D.meaning D.place D.part) domain.now.origin writer.new state.new }
    ensures part { IsDomainToken D.meaning writer.new.token }
{
    let client = domain.client();
    domain.ask::<O, F>(writer, client.base() + ROOT);
    state.lists.apply(e)
}

/// Appends a member to the pending list, or answers `Full`. Readers don't see it before it is committed.
pub fn add<D: Within<ArrayClient>, F>(
    domain: &Domain<D>,
    writer: &mut Writer<D, F>,
    state: &mut ArrayState,
    v: u64,
) -> EditReply
    requires table { table writer.old.token ≡ domain.now }
    requires ready { IsReady (host D.meaning D.place D.part) domain.now.origin writer.old state.old }
    ensures steps { (root : ℕ) × (writer.new ≡ record writer.old { token = adding writer.old.token (entry (opens_of (Add v)) (Load (base_word (host D.meaning D.place D.part) domain.now.origin) root) ∷ []) }) }
    ensures reply { result ≡ (list_step state.old.lists (Add v)).1 }
    ensures lists { state.new ≡ record state.old { lists = (list_step state.old.lists (Add v)).0 } }
    ensures log { logged (knows (host D.meaning D.place D.part) domain.now.origin writer.new.token) ≡ logged (knows (host D.meaning D.place D.part) domain.now.origin writer.old.token) ++ Add v ∷ [] }
    ensures ready { IsReady (host D.meaning D.place D.part) domain.now.origin writer.new state.new }
    ensures part { IsDomainToken D.meaning writer.new.token }
{
    edit_pending::<D, F, Brand>(domain, writer, state, Edit::Add(v))
}

/// Takes the first such member out of the pending list, or answers `Missing`. Readers don't see it before the list is committed.
pub fn drop_one<D: Within<ArrayClient>, F>(
    domain: &Domain<D>,
    writer: &mut Writer<D, F>,
    state: &mut ArrayState,
    v: u64,
) -> EditReply
    requires table { table writer.old.token ≡ domain.now }
    requires ready { IsReady (host D.meaning D.place D.part) domain.now.origin writer.old state.old }
    ensures steps { (root : ℕ) × (writer.new ≡ record writer.old { token = adding writer.old.token (entry (opens_of (Drop v)) (Load (base_word (host D.meaning D.place D.part) domain.now.origin) root) ∷ []) }) }
    ensures reply { result ≡ (list_step state.old.lists (Drop v)).1 }
    ensures lists { state.new ≡ record state.old { lists = (list_step state.old.lists (Drop v)).0 } }
    ensures log { logged (knows (host D.meaning D.place D.part) domain.now.origin writer.new.token) ≡ logged (knows (host D.meaning D.place D.part) domain.now.origin writer.old.token) ++ Drop v ∷ [] }
    ensures ready { IsReady (host D.meaning D.place D.part) domain.now.origin writer.new state.new }
    ensures part { IsDomainToken D.meaning writer.new.token }
{
    edit_pending::<D, F, Brand>(domain, writer, state, Edit::Drop(v))
}
