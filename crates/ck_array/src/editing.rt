//! Edits of an array with signals. Where the arena has no region for a commit, it polls once.
ghost use Rattle.std.specs.Prelude.{◌≡◌, ◌≢◌, ℕ, ◌+◌, ◌-◌, ◌<◌, ◌^◌, [], ◌∷◌, length, IsOk, MatchOption, MatchResult};
ghost use Rattle.ck_run.specs.declared.account.Step.TheVariants.{Load};
ghost use Rattle.ck_run.specs.Run.{entry};
ghost use Rattle.ck_run.specs.Tokens.{table, adding};
ghost use Rattle.ck_epoch.specs.State.{state as epochs};
ghost use Rattle.ck_epoch.specs.Lists.{Answers};
ghost use Rattle.ck_history.specs.declared.edit.Edit.TheVariants.{Commit};
ghost use Rattle.ck_arraylaw.specs.Client.{is_region, home_of};
ghost use Rattle.ck_arraylaw.specs.Host.{base_word};
ghost use Rattle.ck_arraylaw.specs.Reached.{with_signals};
ghost use Rattle.ck_array.specs.Edited.{HasPolled, IsBusy, IsCommitted, IsEdited, IsMade, IsRefused};
ghost use Rattle.ck_array.specs.Ends.{IsWriterReady};
ghost use Rattle.ck_array.specs.Writes.{opens_of};

use crate::committing;
use crate::state::ArrayState;
use crate::writing::edit_pending;
use ck_arraylaw::ArrayClient;
use ck_epoch::{Domain, Item, Writer};
use ck_history::{Busy, Edit, EditReply};
use ck_signal::Signals;
use ck_words::Back;
use std::marker::Brand;

// Makes an edit of the pending list, and counts it.
pub(crate) fn edit<F>(
    domain: &Domain<Signals<ArrayClient>>,
    writer: &mut Writer<Signals<ArrayClient>, F>,
    state: &mut ArrayState,
    e: Edit,
) -> EditReply
    requires table { table writer.old.token ≡ domain.now }
    requires calls { writer.old.calls < 2 ^ 40 }
    requires pending { e ≢ Commit }
    requires ready { IsWriterReady domain.now.origin writer.old state.old }
    ensures done { IsEdited domain.now.origin writer.old state.old e result writer.new state.new }
    ensures calls { writer.new.calls ≡ writer.old.calls + 1 }
    ensures steps { (root : ℕ) × (writer.new.token ≡ adding writer.old.token (entry (opens_of e) (Load (base_word with_signals domain.now.origin) root) ∷ [])) }
    ensures items { (epochs writer.new.token).pending ≡ (epochs writer.old.token).pending }
{
    let reply = edit_pending::<Signals<ArrayClient>, F, Brand>(domain, writer, state, e);
    let edits = writer.tally();
    writer.set_tally(edits + 1);
    reply
}

// Makes the commit, unless no region of the length that it takes is free, and counts it.
fn attempt<F>(
    domain: &Domain<Signals<ArrayClient>>,
    writer: &mut Writer<Signals<ArrayClient>, F>,
    state: &mut ArrayState,
) -> Option<EditReply>
    requires table { table writer.old.token ≡ domain.now }
    requires calls { writer.old.calls + 1 < 2 ^ 40 }
    requires room { length (epochs writer.old.token).pending + length writer.old.waiting < writer.old.room }
    requires ready { IsWriterReady domain.now.origin writer.old state.old }
    ensures made { MatchOption result (IsRefused domain.now.origin writer.old state.old writer.new state.new) (λ reply. IsMade domain.now.origin writer.old state.old reply writer.new state.new) }
{
    match committing::commit(domain, writer, state) {
        Some(reply) => {
            let edits = writer.tally();
            writer.set_tally(edits + 1);
            Some(reply)
        }
        None => None,
    }
}

// Polls once, and gives each answer that waits back to the arena. Answers the record that the poll loaded active, where it did.
fn poll_all<F: Fn(Item) -> Back>(
    domain: &Domain<Signals<ArrayClient>>,
    writer: &mut Writer<Signals<ArrayClient>, F>,
    state: &mut ArrayState,
) -> Option<Busy>
    requires table { table writer.old.token ≡ domain.now }
    requires calls { writer.old.calls < 2 ^ 40 }
    requires handler { Answers (λ item. is_region item) (λ item. home_of item) (F.pre writer.old.handler) (F.post writer.old.handler) }
    requires ready { IsWriterReady domain.now.origin writer.old state.old }
    ensures polled { HasPolled domain.now.origin writer.old state.old result writer.new state.new }
{
    ck_arena::poll_all::<_, ArrayState, _>(domain, writer, &mut state.arena)
}

// Makes the commit, after one poll where the arena has no region for it. Busy where it has none then.
pub(crate) fn commit<F: Fn(Item) -> Back>(
    domain: &Domain<Signals<ArrayClient>>,
    writer: &mut Writer<Signals<ArrayClient>, F>,
    state: &mut ArrayState,
) -> Result<EditReply, Busy>
    requires table { table writer.old.token ≡ domain.now }
    requires calls { writer.old.calls < 2 ^ 40 - 8 }
    requires handler { Answers (λ item. is_region item) (λ item. home_of item) (F.pre writer.old.handler) (F.post writer.old.handler) }
    requires ready { IsWriterReady domain.now.origin writer.old state.old }
    ensures done { MatchResult result (λ reply. IsCommitted domain.now.origin writer.old state.old reply writer.new state.new) (λ busy. IsBusy domain.now.origin writer.old state.old busy writer.new state.new) }
    ensures ok { (epochs writer.old.token).pending ≡ [] → IsOk result }
    ensures ready { IsWriterReady domain.now.origin writer.new state.new }
{
    // By these contracts see that no two pieces of the arena share a word.
    let _free = state.free_words();
    let first = attempt(domain, writer, state);
    if let Some(reply) = first {
        return Ok(reply);
    }
    let found = poll_all(domain, writer, state);
    let _given = state.free_words();
    let second = attempt(domain, writer, state);
    match second {
        Some(reply) => Ok(reply),
        None => Err(found.unwrap()),
    }
}
