//! What polls and barriers dispatched goes back to the arena.
ghost use Rattle.std.specs.Prelude.{◌≡◌, ℕ, ◌+◌, ◌<◌, ◌^◌, [], length};
ghost use Rattle.ck_run.specs.Tokens.{table};
ghost use Rattle.ck_words.specs.Buddies.{Piece, with_pieces_out};
ghost use Rattle.ck_epoch.specs.declared.item.Item.{Item as ItemOf};
ghost use Rattle.ck_epoch.specs.State.{Origin, state as epochs, barrier as bars, records_of};
ghost use Rattle.ck_epoch.specs.Lists.{Answers};
ghost use Rattle.ck_epoch.specs.Rounds.{Rounds};
ghost use Rattle.ck_arena.specs.Arena.{unreturned, AreBacks, GoHome, KeepsAll};
ghost use Rattle.ck_arena.specs.Found.{PollsOnce};

use crate::found::found_active;
use ck_epoch::{Client, Domain, Item, Writer};
use ck_history::Busy;
use ck_words::{Back, Buddies};
use std::sync::Wait;

/// A structure that has a domain of its own, as far as contracts speak of it.
pub trait Pieces<C> {
    // Where its words begin, and which items are its own.
    ghost place: { Origin C → ℕ };

    ghost is_item: { Origin C → ItemOf → Type 0 };
}

// Gives each answer that waits back to the arena.
fn give_back<C: Client, P: Pieces<C>, F>(
    domain: &Domain<C>,
    writer: &mut Writer<C, F>,
    arena: &mut Buddies,
)
    requires table { table writer.old.token ≡ domain.now }
    requires home { GoHome (C.meaning.home domain.now.origin.config.client) (P.place domain.now.origin) }
    requires backs { AreBacks (C.meaning.home domain.now.origin.config.client) (epochs writer.old.token) writer.old.waiting }
    requires kept { (present : Piece) × KeepsAll (P.is_item domain.now.origin) (P.place domain.now.origin) present (unreturned (epochs writer.old.token) writer.old.waiting) arena.old }
    ensures writer { writer.new ≡ record writer.old { waiting = [] } }
    ensures arena { arena.new ≡ with_pieces_out arena.old arena.new.out }
    ensures kept { (present : Piece) → KeepsAll (P.is_item domain.now.origin) (P.place domain.now.origin) present (unreturned (epochs writer.old.token) writer.old.waiting) arena.old
        → KeepsAll (P.is_item domain.now.origin) (P.place domain.now.origin) present (unreturned (epochs writer.new.token) writer.new.waiting) arena.new }
{
    while let Some(back) = domain.next_back(writer) {
        arena.give(back.at, back.log);
    }
}

/// Polls once, and gives each answer that waits back to the arena. Answers the record that the poll loaded active, where it did.
pub fn poll_all<C: Client, P: Pieces<C>, F: Fn(Item) -> Back>(
    domain: &Domain<C>,
    writer: &mut Writer<C, F>,
    arena: &mut Buddies,
) -> Option<Busy>
    requires table { table writer.old.token ≡ domain.now }
    requires calls { writer.old.calls < 2 ^ 40 }
    requires handler { Answers (C.meaning.retires domain.now.origin.config.client) (C.meaning.home domain.now.origin.config.client) (F.pre writer.old.handler) (F.post writer.old.handler) }
    requires home { GoHome (C.meaning.home domain.now.origin.config.client) (P.place domain.now.origin) }
    requires given { writer.old.waiting ≡ [] }
    requires kept { (present : Piece) × KeepsAll (P.is_item domain.now.origin) (P.place domain.now.origin) present (unreturned (epochs writer.old.token) writer.old.waiting) arena.old }
    ensures same { writer.new ≡ record writer.old { token = writer.new.token; calls = writer.old.calls + 1 } }
    ensures table { table writer.new.token ≡ table writer.old.token }
    ensures polled { PollsOnce domain.now.origin writer.old.token result writer.new.token }
    ensures arena { arena.new ≡ with_pieces_out arena.old arena.new.out }
    ensures kept { (present : Piece) → KeepsAll (P.is_item domain.now.origin) (P.place domain.now.origin) present (unreturned (epochs writer.old.token) writer.old.waiting) arena.old
        → KeepsAll (P.is_item domain.now.origin) (P.place domain.now.origin) present (unreturned (epochs writer.new.token) writer.new.waiting) arena.new }
{
    let (epoch, answer) = domain.poll_from(writer);
    give_back::<C, P, F>(domain, writer, arena);
    found_active(epoch, answer)
}

/// Waits as a barrier does, and gives all that was retired back to the arena. Answers how many items that were.
pub fn give_all<C: Client, P: Pieces<C>, F: Fn(Item) -> Back, R: Wait>(
    domain: &Domain<C>,
    rt: &R,
    writer: &mut Writer<C, F>,
    arena: &mut Buddies,
) -> u64
    requires table { table writer.old.token ≡ domain.now }
    requires calls { writer.old.calls < 2 ^ 40 }
    requires handler { Answers (C.meaning.retires domain.now.origin.config.client) (C.meaning.home domain.now.origin.config.client) (F.pre writer.old.handler) (F.post writer.old.handler) }
    requires home { GoHome (C.meaning.home domain.now.origin.config.client) (P.place domain.now.origin) }
    requires given { writer.old.waiting ≡ [] }
    requires kept { (present : Piece) × KeepsAll (P.is_item domain.now.origin) (P.place domain.now.origin) present (unreturned (epochs writer.old.token) writer.old.waiting) arena.old }
    ensures same { writer.new ≡ record writer.old { token = writer.new.token; calls = writer.old.calls + 1 } }
    ensures table { table writer.new.token ≡ table writer.old.token }
    ensures steps { Rounds (records_of domain.now.origin) bars (epochs writer.old.token).epoch writer.old.token writer.new.token }
    ensures pending { (epochs writer.new.token).pending ≡ [] }
    ensures count { result ≡ length (epochs writer.old.token).pending }
    ensures arena { arena.new ≡ with_pieces_out arena.old arena.new.out }
    ensures kept { (present : Piece) → KeepsAll (P.is_item domain.now.origin) (P.place domain.now.origin) present (unreturned (epochs writer.old.token) writer.old.waiting) arena.old
        → KeepsAll (P.is_item domain.now.origin) (P.place domain.now.origin) present (unreturned (epochs writer.new.token) writer.new.waiting) arena.new }
{
    let retired = domain.barrier(rt, writer);
    give_back::<C, P, F>(domain, writer, arena);
    retired
}
