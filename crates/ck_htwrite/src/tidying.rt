//! The call that rebuilds a map in which tombstones stand.
ghost use Rattle.std.specs.Prelude.{◌≡◌, ◌↔◌, ℕ, ◌+◌, ◌^◌, ◌<◌, ◌≤◌, List, [], ◌∷◌, ◌++◌, length, IfOk, IfErr, IsErr};
ghost use Rattle.ck_run.specs.declared.account.Entry.{Entry};
ghost use Rattle.ck_run.specs.Tokens.{table, adding};
ghost use Rattle.ck_history.specs.declared.update.Update.TheVariants.{Tidy};
ghost use Rattle.ck_history.specs.declared.update.Reply.TheVariants.{Tidied};
ghost use Rattle.ck_epoch.specs.Ends.{IsDomainToken};
ghost use Rattle.ck_epoch.specs.State.{state as epochs};
ghost use Rattle.ck_htplan.specs.Region.{view_of};
ghost use Rattle.ck_htlaw.specs.Calls.{tidy as tidying};
ghost use Rattle.ck_htlaw.specs.Host.{host, lies};
ghost use Rattle.ck_htlaw.specs.Known.{knows};
ghost use Rattle.ck_htlaw.specs.Layout.{log_of};
ghost use Rattle.ck_htlaw.specs.Stages.{idle};
ghost use Rattle.ck_arena.specs.Arena.{unreturned, HasNoneFree};
ghost use Rattle.ck_htwrite.specs.Arena.{IsKept, MayAddRegion};
ghost use Rattle.ck_htwrite.specs.Rebuild.{AreTidying, HoldKeysOnce, Rebuilt};
ghost use Rattle.ck_htwrite.specs.State.{IsReady, Ready};
ghost use Rattle.ck_htwrite.specs.Writes.{counters_in};

use crate::calls::count_update;
use crate::growth::rebuild;
use crate::state::{HtState, Need};
use crate::writes::ask_root;
use ck_epoch::{Domain, Within, Writer};
use ck_history::Reply;
use ck_htlaw::HtClient;
use ck_run::Opens;
use std::marker::Brand;

// Rebuilds the map to as many slots where tombstones stand in it. Else the call loads the root, which is its step in the account.
fn tidy_map<D: Within<HtClient>, F, O: Opens>(
    domain: &Domain<D>,
    writer: &mut Writer<D, F>,
    state: &mut HtState,
) -> Result<(), Need>
    requires table { table writer.old.token ≡ domain.now }
    requires name { O.opens ≡ tidying ∷ [] }
    requires calls { writer.old.calls < 2 ^ 40 }
    requires room { length (epochs writer.old.token).pending + length writer.old.waiting < writer.old.room }
    requires once { HoldKeysOnce (view_of state.old.words.items) (2 ^ log_of state.old.root) }
    requires arena { IsKept (counters_in (host D.meaning D.place D.part) domain.now.origin) (D.place domain.now.origin.config.client) state.old.root (unreturned (epochs writer.old.token) writer.old.waiting) state.old.arena }
    requires ready { IsReady (host D.meaning D.place D.part) domain.now.origin writer.old.token state.old }
    ensures none { IsErr result ↔ ((0 < state.old.tombstones) × HasNoneFree state.old.arena (log_of state.old.root + 2)) }
    ensures need { IfErr result (λ need. (need ≡ record { shelf = 0; log = log_of state.old.root + 2 }) × (writer.new ≡ writer.old) × (state.new ≡ state.old)) }
    ensures steps { IfOk result (λ u. (es : List Entry) × (k : ℕ) × (k ≤ 1) × AreTidying (lies (host D.meaning D.place D.part) domain.now.origin) O.opens state.old.tombstones state.old.root state.new.root es × (writer.new ≡ record writer.old { token = adding writer.old.token es; calls = writer.old.calls + k })) }
    ensures over { IfOk result (λ u. Rebuilt (counters_in (host D.meaning D.place D.part) domain.now.origin) (lies (host D.meaning D.place D.part) domain.now.origin) (knows (host D.meaning D.place D.part) domain.now.origin writer.new.token) idle (record { update = Tidy; reply = Tidied }) ((knows (host D.meaning D.place D.part) domain.now.origin writer.old.token).log ++ record { update = Tidy; reply = Tidied } ∷ []) state.new) }
    ensures items { IfOk result (λ u. MayAddRegion (counters_in (host D.meaning D.place D.part) domain.now.origin) (D.place domain.now.origin.config.client) (unreturned (epochs writer.old.token) writer.old.waiting) (unreturned (epochs writer.new.token) writer.new.waiting)) }
    ensures lists { IfOk result (λ u. (state.new.keys ≡ state.old.keys) × (state.new.tombstones ≡ 0) × (log_of state.new.root ≡ log_of state.old.root)) }
    ensures arena { IfOk result (λ u. IsKept (counters_in (host D.meaning D.place D.part) domain.now.origin) (D.place domain.now.origin.config.client) state.new.root (unreturned (epochs writer.new.token) writer.new.waiting) state.new.arena) }
{
    if state.tombstones == 0 {
        ask_root::<D, F, O>(domain, writer);
        return Ok(());
    }
    let log = state.root % 32;
    rebuild::<D, F, O>(domain, writer, state, log)?;
    Ok(())
}

/// Rebuilds the map to as many slots where tombstones stand in it, as `ck_ht_gc_spmc`, but whole and at once, into another region; else it does
/// nothing. The map stays what it was. Need comes exactly where a rebuild is due and no region of that length is free, and then nothing
/// changed.
pub fn tidy<D: Within<HtClient>, F>(
    domain: &Domain<D>,
    writer: &mut Writer<D, F>,
    state: &mut HtState,
) -> Result<Reply, Need>
    requires table { table writer.old.token ≡ domain.now }
    requires calls { writer.old.calls + 1 < 2 ^ 40 }
    requires room { length (epochs writer.old.token).pending + length writer.old.waiting < writer.old.room }
    requires ready { Ready (host D.meaning D.place D.part) domain.now.origin writer.old state.old }
    ensures none { IsErr result ↔ ((0 < state.old.tombstones) × HasNoneFree state.old.arena (log_of state.old.root + 2)) }
    ensures need { IfErr result (λ need. (need ≡ record { shelf = 0; log = log_of state.old.root + 2 }) × (writer.new ≡ writer.old) × (state.new ≡ state.old)) }
    ensures reply { IfOk result (λ r. r ≡ Tidied) }
    ensures log { IfOk result (λ r. (knows (host D.meaning D.place D.part) domain.now.origin writer.new.token).log ≡ (knows (host D.meaning D.place D.part) domain.now.origin writer.old.token).log ++ record { update = Tidy; reply = r } ∷ []) }
    ensures items { IfOk result (λ r. MayAddRegion (counters_in (host D.meaning D.place D.part) domain.now.origin) (D.place domain.now.origin.config.client) (unreturned (epochs writer.old.token) writer.old.waiting) (unreturned (epochs writer.new.token) writer.new.waiting)) }
    ensures lists { IfOk result (λ r. (state.new.keys ≡ state.old.keys) × (state.new.tombstones ≡ 0) × (log_of state.new.root ≡ log_of state.old.root)) }
    ensures steps { IfOk result (λ r. (es : List Entry) × (k : ℕ) × (k ≤ 1) × AreTidying (lies (host D.meaning D.place D.part) domain.now.origin) (tidying ∷ []) state.old.tombstones state.old.root state.new.root es × (writer.new ≡ record writer.old { token = adding writer.old.token es; calls = writer.old.calls + k + 1; tally = writer.old.tally + 1 })) }
    ensures calls { writer.new.calls ≤ writer.old.calls + 2 }
    ensures table { table writer.new.token ≡ table writer.old.token }
    ensures ready { Ready (host D.meaning D.place D.part) domain.now.origin writer.new state.new }
{
    let _updates = writer.tally();
    tidy_map::<D, F, Brand>(domain, writer, state)?;
    count_update(writer);
    Ok(Reply::Tidied)
}
