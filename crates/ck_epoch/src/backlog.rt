//! The items that are pending, and the answers of the handler that wait for the writer. Only `new` takes memory.
ghost use Rattle.std.specs.Prelude.{◌≡◌, ℕ, ◌+◌, ◌<◌, ◌≤◌, ◌^◌, ◌==◌, cond, [], ◌∷◌, ◌++◌, length, IfOk, Contains};
ghost use Rattle.std.specs.Option.{MatchOption};
ghost use Rattle.std.specs.VecDeque.{deque_len, deque_capacity};
ghost use Rattle.ck_epoch.specs.State.{queue, state};
ghost use Rattle.ck_epoch.specs.Lists.{on, items_on, in_a_row, homes, Answers, AreDispatched};

use crate::about::About;
use crate::client::Client;
use crate::handler::Handler;
use crate::item::Item;
use crate::lists::{LISTS, PendingList};
use crate::pending::PendingItem;
use ck_run::Token;
use ck_words::Back;
use std::alloc::{AllocError, Global};
use std::collections::VecDeque;
use std::marker::Model;

/// What a writer has retired and not yet given back. Contracts see the four lists of items that are pending, each in order of
/// retirement, the answers that wait, and how many of both there is room for.
///
/// An item stands on the list of its epoch modulo 4. So what a poll dispatches is whole lists, and it touches no other items.
#[derive(Drop)]
pub struct Backlog {
    lists: Vec<PendingList<PendingItem>>,
    waiting: VecDeque<Back>,
}

impl Model for Backlog {
    ghost use Rattle.std.specs.VecDeque.{deque_len, deque_capacity};
    ghost use Rattle.ck_epoch.specs.Lists.{Backlog as BacklogOf, lists_view, ListsHaveRoom};

    ghost Value = { BacklogOf };

    ghost view = { λ b. record { lists = lists_view b.lists.items; waiting = b.waiting.items; room = deque_capacity b.waiting } };

    ghost invariant = { λ b. ListsHaveRoom b.lists (deque_len b.waiting) (deque_capacity b.waiting) };
}

// Takes the items of a list out, in order of retirement, and lets the handler's answer for each wait.
fn dispatch<C: Client, F: Fn(Item) -> Back>(
    client: &C,
    token: &Token<About<C>>,
    list: &mut PendingList<PendingItem>,
    handler: &Handler<F>,
    waiting: &mut VecDeque<Back>,
)
    requires handler { Answers (C.meaning.retires client.now) (C.meaning.home client.now) (F.pre handler.now) (F.post handler.now) }
    requires items { AreDispatched (C.meaning.retires client.now) (queue (state token.now).pending) list.old.items }
    requires room { deque_len waiting.old + length list.old.items ≤ deque_capacity waiting.old }
    ensures list { list.new ≡ record list.old { items = [] } }
    ensures waiting { waiting.new.items ≡ waiting.old.items ++ homes (C.meaning.home client.now) list.old.items }
    ensures len { deque_len waiting.new ≡ deque_len waiting.old + length list.old.items }
    ensures capacity { deque_capacity waiting.new ≡ deque_capacity waiting.old }
{
    for _i in 0..list.len() {
        let item = list.pop();
        waiting.push_back_reserved(handler.answer(client, token, item));
    }
}

impl Backlog {
    /// Room for so many items that are pending and answers that wait. They may all stand on one list.
    pub(crate) fn new(alloc: Global, room: usize) -> Result<Backlog, AllocError>
        ensures lists { IfOk result (λ b. (list : ℕ) → list < 4 → items_on b.lists list ≡ []) }
        ensures rest { IfOk result (λ b. (b.waiting ≡ []) × (b.room ≡ room)) }
    {
        let lists = PendingList::empty_lists(alloc, room)?;
        let waiting = VecDeque::with_capacity(alloc, room)?;
        Ok(Backlog { lists, waiting })
    }

    /// How many items are pending.
    pub(crate) fn pending(&self) -> u64
        ensures { result ≡ length (in_a_row self.now.lists) }
    {
        let lists = &self.lists;
        (lists[0].len() + lists[1].len() + lists[2].len() + lists[3].len()) as u64
    }

    /// How many answers wait.
    pub(crate) fn waiting(&self) -> u64
        ensures { result ≡ length self.now.waiting }
    {
        self.waiting.len() as u64
    }

    /// Puts an item that was retired at this epoch behind those of its list.
    pub(crate) fn retire<C>(&mut self, token: &Token<About<C>>, item: Item, epoch: u64)
        requires pending { Contains (queue (state token.now).pending) (record { item = item; epoch = epoch }) }
        requires room { length (in_a_row self.old.lists) + length self.old.waiting < self.old.room }
        ensures lists { (list : ℕ) → list < 4 → items_on self.new.lists list ≡ items_on self.old.lists list ++ on list (record { item = item; epoch = epoch } ∷ []) }
        ensures rest { (self.new.waiting ≡ self.old.waiting) × (self.new.room ≡ self.old.room) }
    {
        let pending = PendingItem::new(token, item, epoch);
        self.lists[epoch as usize % LISTS].push(pending);
    }

    /// Takes the answer that waits longest.
    pub(crate) fn next_back(&mut self) -> Option<Back>
        ensures oldest { MatchOption result ((self.old.waiting ≡ []) × (self.new.waiting ≡ [])) (λ b. self.old.waiting ≡ b ∷ self.new.waiting) }
        ensures rest { (self.new.lists ≡ self.old.lists) × (self.new.room ≡ self.old.room) }
    {
        self.waiting.pop_front()
    }

    /// Dispatches one list: its items leave in order of retirement, and the handler's answer for each waits. Returns how many. The step
    /// that dispatches them was made: by the writer's account none of these items is pending any more.
    pub(crate) fn dispatch_list<C: Client, F: Fn(Item) -> Back>(
        &mut self,
        client: &C,
        token: &Token<About<C>>,
        list: u64,
        handler: &Handler<F>,
    ) -> u64
        requires list { list < 4 }
        requires items { AreDispatched (C.meaning.retires client.now) (queue (state token.now).pending) (items_on self.old.lists list) }
        requires handler { Answers (C.meaning.retires client.now) (C.meaning.home client.now) (F.pre handler.now) (F.post handler.now) }
        ensures lists { (other : ℕ) → other < 4 → items_on self.new.lists other ≡ cond (other == list) [] (items_on self.old.lists other) }
        ensures waiting { self.new.waiting ≡ self.old.waiting ++ homes (C.meaning.home client.now) (items_on self.old.lists list) }
        ensures room { self.new.room ≡ self.old.room }
        ensures count { result ≡ length (items_on self.old.lists list) }
        ensures total { (result + length (in_a_row self.new.lists) ≡ length (in_a_row self.old.lists)) × (length (in_a_row self.old.lists) < 2 ^ 63) }
    {
        let items = &mut self.lists[list as usize];
        let count = items.len() as u64;
        dispatch(client, token, items, handler, &mut self.waiting);
        count
    }

    /// Dispatches all lists in order of their numbers, each in order of retirement. Returns how many items that were. The step that
    /// dispatches them was made: by the writer's account none of them is pending any more.
    pub(crate) fn dispatch_all<C: Client, F: Fn(Item) -> Back>(
        &mut self,
        client: &C,
        token: &Token<About<C>>,
        handler: &Handler<F>,
    ) -> u64
        requires items { (list : ℕ) → list < 4 → AreDispatched (C.meaning.retires client.now) (queue (state token.now).pending) (items_on self.old.lists list) }
        requires handler { Answers (C.meaning.retires client.now) (C.meaning.home client.now) (F.pre handler.now) (F.post handler.now) }
        ensures lists { (list : ℕ) → list < 4 → items_on self.new.lists list ≡ [] }
        ensures waiting { self.new.waiting ≡ self.old.waiting ++ homes (C.meaning.home client.now) (in_a_row self.old.lists) }
        ensures room { self.new.room ≡ self.old.room }
        ensures count { result ≡ length (in_a_row self.old.lists) }
    {
        let all = self.pending();
        self.dispatch_list(client, token, 0, handler);
        self.dispatch_list(client, token, 1, handler);
        self.dispatch_list(client, token, 2, handler);
        self.dispatch_list(client, token, 3, handler);
        all
    }
}
