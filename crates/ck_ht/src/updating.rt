//! Updates that may rebuild the map. Where the arena has no region for that, they poll once.
ghost use Rattle.std.specs.Prelude.{true, ◌≡◌, ◌≢◌, ◌+◌, ◌-◌, ◌<◌, ◌^◌, [], length, IsOk, MatchResult};
ghost use Rattle.std.specs.Ordering.{nat_cmp};
ghost use Rattle.ck_run.specs.Tokens.{table};
ghost use Rattle.ck_epoch.specs.State.{state as epochs};
ghost use Rattle.ck_epoch.specs.Lists.{Answers};
ghost use Rattle.ck_history.specs.declared.update.Update.TheVariants.{Tidy};
ghost use Rattle.ck_history.specs.Map.{step};
ghost use Rattle.ck_htlaw.specs.Actions.{most};
ghost use Rattle.ck_htlaw.specs.Client.{home_of};
ghost use Rattle.ck_htlaw.specs.Known.{knows};
ghost use Rattle.ck_htlaw.specs.Linearized.{map_after};
ghost use Rattle.ck_htlaw.specs.Reached.{with_signals};
ghost use Rattle.ck_htwrite.specs.State.{Ready};
ghost use Rattle.ck_ht.specs.Ends.{IsWriterReady};
ghost use Rattle.ck_ht.specs.Room.{HasRoomFor};
ghost use Rattle.ck_ht.specs.Updating.{MayRebuild, IsKeyed, IsMade, IsRefused, HasPolled, IsUpdated, IsBusy};

use crate::Ht;
use ck_epoch::{Domain, Item, Writer};
use ck_history::{Busy, Key, Reply, Update};
use ck_htlaw::HtClient;
use ck_htwrite::{HtState, Need};
use ck_signal::Signals;
use ck_words::Back;

// Makes the update, unless a rebuild is due and no region of the length that it takes is free.
fn attempt<F>(
    domain: &Domain<Signals<HtClient>>,
    writer: &mut Writer<Signals<HtClient>, F>,
    state: &mut HtState,
    update: &Update<Key>,
) -> Result<Reply, Need>
    requires table { table writer.old.token ≡ domain.now }
    requires calls { writer.old.calls + 1 < 2 ^ 40 }
    requires rebuilds { MayRebuild update.now }
    requires room { length (epochs writer.old.token).pending + length writer.old.waiting < writer.old.room }
    requires ready { Ready with_signals domain.now.origin writer.old state.old }
    ensures made { MatchResult result (λ reply. IsMade domain.now.origin update.now writer.old state.old reply writer.new state.new) (λ need. IsRefused domain.now.origin update.now writer.old state.old writer.new state.new) }
{
    match update {
        Update::Set(key, value) => ck_htwrite::set(domain, writer, state, *key, *value),
        Update::Put(key, value) => ck_htwrite::put(domain, writer, state, *key, *value),
        Update::Tidy => ck_htwrite::tidy(domain, writer, state),
        Update::Del(_) => unreachable!(),
    }
}

// Polls once, and gives each answer that waits back to the arena. Answers the record that the poll loaded active, where it did.
fn poll_all<F: Fn(Item) -> Back>(
    domain: &Domain<Signals<HtClient>>,
    writer: &mut Writer<Signals<HtClient>, F>,
    state: &mut HtState,
) -> Option<Busy>
    requires table { table writer.old.token ≡ domain.now }
    requires calls { writer.old.calls < 2 ^ 40 }
    requires handler { Answers (λ item. true) (λ item. home_of item) (F.pre writer.old.handler) (F.post writer.old.handler) }
    requires ready { IsWriterReady domain.now.origin writer.old state.old }
    ensures polled { HasPolled domain.now.origin writer.old state.old result writer.new state.new }
{
    ck_arena::poll_all::<_, Ht, _>(domain, writer, &mut state.arena)
}

// Makes the update, after one poll where the arena has no region for the rebuild that is due. Busy where it has none then.
pub(crate) fn apply<F: Fn(Item) -> Back>(
    domain: &Domain<Signals<HtClient>>,
    writer: &mut Writer<Signals<HtClient>, F>,
    state: &mut HtState,
    update: &Update<Key>,
) -> Result<Reply, Busy>
    requires table { table writer.old.token ≡ domain.now }
    requires calls { writer.old.calls < 2 ^ 40 - 8 }
    requires handler { Answers (λ item. true) (λ item. home_of item) (F.pre writer.old.handler) (F.post writer.old.handler) }
    requires rebuilds { MayRebuild update.now }
    requires keyed { IsKeyed update.now }
    requires room { update.now ≢ Tidy → HasRoomFor domain.now.origin.config.client.client.arena_log (length (step nat_cmp most (map_after (knows with_signals domain.now.origin writer.old.token).log) update.now).0) }
    requires ready { IsWriterReady domain.now.origin writer.old state.old }
    ensures done { MatchResult result (λ reply. IsUpdated domain.now.origin update.now writer.old state.old reply writer.new state.new) (λ busy. IsBusy domain.now.origin update.now writer.old state.old busy writer.new state.new) }
    ensures ok { (epochs writer.old.token).pending ≡ [] → IsOk result }
    ensures ready { IsWriterReady domain.now.origin writer.new state.new }
{
    // By these contracts see that no two pieces of the arena share a word, and that the token is a writer's in a true run.
    let _free = state.free_words();
    let _updates = writer.tally();
    let first = attempt(domain, writer, state, update);
    let _left = state.free_words();
    if let Ok(reply) = first {
        return Ok(reply);
    }
    let found = poll_all(domain, writer, state);
    let _given = state.free_words();
    let _tally = writer.tally();
    let second = attempt(domain, writer, state, update);
    let _rest = state.free_words();
    match second {
        Ok(reply) => Ok(reply),
        Err(_) => Err(found.unwrap()),
    }
}
