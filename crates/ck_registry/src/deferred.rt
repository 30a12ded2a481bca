//! The items that are pending, and those that were dispatched and wait for `next_item`. Only `new` takes memory.
ghost use Rattle.std.specs.Prelude.{◌≡◌, ℕ, ◌+◌, ◌<◌, ◌≤◌, ◌^◌, ◌==◌, cond, [], ◌∷◌, ◌++◌, length, IfOk};
ghost use Rattle.std.specs.Option.{MatchOption};
ghost use Rattle.std.specs.VecDeque.{deque_len, deque_capacity};
ghost use Rattle.ck_epoch.specs.Lists.{on, items_on, in_a_row};
ghost use Rattle.ck_registry.specs.Deferred.{items_of};

use ck_epoch::{Item, LISTS, PendingList, Retired};
use std::alloc::{AllocError, Global};
use std::collections::VecDeque;
use std::marker::Model;

/// What a visitor has retired and not yet handed out. Contracts see the four lists of items that are pending, each in order of retirement,
/// the items that wait, and how many of both there is room for.
///
/// An item stands on the list of its epoch modulo 4. So what a scan or an advance dispatches is whole lists, and it touches no other items.
#[derive(Drop)]
pub struct Deferred {
    lists: Vec<PendingList<Retired>>,
    waiting: VecDeque<Item>,
}

impl Model for Deferred {
    ghost use Rattle.std.specs.VecDeque.{deque_len, deque_capacity};
    ghost use Rattle.ck_epoch.specs.Lists.{lists_view, ListsHaveRoom};
    ghost use Rattle.ck_registry.specs.Deferred.{Deferred as DeferredOf};

    ghost Value = { DeferredOf };

    ghost view = { λ d. record { lists = lists_view d.lists.items; waiting = d.waiting.items; room = deque_capacity d.waiting } };

    ghost invariant = { λ d. ListsHaveRoom d.lists (deque_len d.waiting) (deque_capacity d.waiting) };
}

// Takes the items of a list out, in order of retirement, and lets them wait.
fn dispatch(list: &mut PendingList<Retired>, waiting: &mut VecDeque<Item>)
    requires room { deque_len waiting.old + length list.old.items ≤ deque_capacity waiting.old }
    ensures list { list.new ≡ record list.old { items = [] } }
    ensures waiting { waiting.new.items ≡ waiting.old.items ++ items_of list.old.items }
    ensures len { deque_len waiting.new ≡ deque_len waiting.old + length list.old.items }
    ensures capacity { deque_capacity waiting.new ≡ deque_capacity waiting.old }
{
    for _i in 0..list.len() {
        let retired = list.pop();
        waiting.push_back_reserved(retired.item);
    }
}

impl Deferred {
    /// Room for so many items that are pending or wait. They may all stand on one list.
    pub(crate) fn new(alloc: Global, room: usize) -> Result<Deferred, AllocError>
        ensures lists { IfOk result (λ d. (list : ℕ) → list < 4 → items_on d.lists list ≡ []) }
        ensures rest { IfOk result (λ d. (d.waiting ≡ []) × (d.room ≡ room)) }
    {
        let lists = PendingList::empty_lists(alloc, room)?;
        let waiting = VecDeque::with_capacity(alloc, room)?;
        Ok(Deferred { lists, waiting })
    }

    /// How many items are pending.
    pub(crate) fn pending(&self) -> u64
        ensures { result ≡ length (in_a_row self.now.lists) }
    {
        let lists = &self.lists;
        (lists[0].len() + lists[1].len() + lists[2].len() + lists[3].len()) as u64
    }

    /// How many items wait.
    pub(crate) fn waiting(&self) -> u64
        ensures { result ≡ length self.now.waiting }
    {
        self.waiting.len() as u64
    }

    /// Puts an item that was retired at this epoch behind those of its list.
    pub(crate) fn retire(&mut self, item: Item, epoch: u64)
        requires room { length (in_a_row self.old.lists) + length self.old.waiting < self.old.room }
        ensures lists { (list : ℕ) → list < 4 → items_on self.new.lists list ≡ items_on self.old.lists list ++ on list (record { item = item; epoch = epoch } ∷ []) }
        ensures rest { (self.new.waiting ≡ self.old.waiting) × (self.new.room ≡ self.old.room) }
    {
        let retired = Retired { item, epoch };
        self.lists[epoch as usize % LISTS].push(retired);
    }

    /// Takes the item that waits longest.
    pub(crate) fn next_item(&mut self) -> Option<Item>
        ensures oldest { MatchOption result ((self.old.waiting ≡ []) × (self.new.waiting ≡ [])) (λ i. self.old.waiting ≡ i ∷ self.new.waiting) }
        ensures rest { (self.new.lists ≡ self.old.lists) × (self.new.room ≡ self.old.room) }
    {
        self.waiting.pop_front()
    }

    /// Dispatches one list: its items leave in order of retirement, and wait. Returns how many.
    pub(crate) fn dispatch_list(&mut self, list: u64) -> u64
        requires list { list < 4 }
        ensures lists { (other : ℕ) → other < 4 → items_on self.new.lists other ≡ cond (other == list) [] (items_on self.old.lists other) }
        ensures waiting { self.new.waiting ≡ self.old.waiting ++ items_of (items_on self.old.lists list) }
        ensures room { self.new.room ≡ self.old.room }
        ensures count { result ≡ length (items_on self.old.lists list) }
        ensures total { (result + length (in_a_row self.new.lists) ≡ length (in_a_row self.old.lists)) × (length (in_a_row self.old.lists) < 2 ^ 63) }
    {
        let items = &mut self.lists[list as usize];
        let count = items.len() as u64;
        dispatch(items, &mut self.waiting);
        count
    }

    /// Dispatches all lists in order of their numbers, each in order of retirement. Returns how many items that were.
    pub(crate) fn dispatch_all(&mut self) -> u64
        ensures lists { (list : ℕ) → list < 4 → items_on self.new.lists list ≡ [] }
        ensures waiting { self.new.waiting ≡ self.old.waiting ++ items_of (in_a_row self.old.lists) }
        ensures room { self.new.room ≡ self.old.room }
        ensures count { result ≡ length (in_a_row self.old.lists) }
    {
        let all = self.pending();
        self.dispatch_list(0);
        self.dispatch_list(1);
        self.dispatch_list(2);
        self.dispatch_list(3);
        all
    }
}
