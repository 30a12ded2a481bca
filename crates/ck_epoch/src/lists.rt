//! The lists on which pending items stand.
ghost use Rattle.std.specs.Prelude.{◌≡◌, ◌<◌, ◌++◌, [], ◌∷◌, length, vec_len, IfOk, All};

use std::alloc::{AllocError, Global};
use std::collections::VecDeque;
use std::marker::Model;

/// How many lists of pending items there are: an item stands on that of its epoch modulo so many.
pub const LISTS: usize = 4;

/// A list of pending items, in order of retirement, with room for so many.
#[derive(Drop)]
pub struct PendingList<P> {
    items: VecDeque<P>,
}

impl<P> Model for PendingList<P> {
    ghost use Rattle.std.specs.VecDeque.{deque_capacity};
    ghost use Rattle.ck_epoch.specs.Lists.{PendingList as PendingListOf};

    ghost Value = { PendingListOf P };

    ghost view = { λ l. record { items = l.items.items; room = deque_capacity l.items } };

    ghost invariant = { λ l. Unit {0} };
}

impl<P> PendingList<P> {
    fn new(alloc: Global, room: usize) -> Result<PendingList<P>, AllocError>
        ensures { IfOk result (λ l. l ≡ record { items = []; room = room }) }
    {
        let items = VecDeque::with_capacity(alloc, room)?;
        Ok(PendingList { items })
    }

    /// How many items it has.
    pub fn len(&self) -> usize
        ensures { result ≡ length self.now.items }
    {
        self.items.len()
    }

    /// Puts an item behind the others.
    pub fn push(&mut self, item: P)
        requires { length self.old.items < self.old.room }
        ensures { self.new ≡ record self.old { items = self.old.items ++ item ∷ [] } }
    {
        self.items.push_back_reserved(item);
    }

    /// Takes the item that was retired first.
    pub fn pop(&mut self) -> P
        requires some { 0 < length self.old.items }
        ensures first { self.old.items ≡ result ∷ self.new.items }
        ensures room { self.new.room ≡ self.old.room }
    {
        self.items.pop_front().unwrap()
    }
}

impl<P: Drop> PendingList<P> {
    /// Four empty lists, each with room for so many items.
    pub fn empty_lists(alloc: Global, room: usize) -> Result<Vec<PendingList<P>>, AllocError>
        ensures count { IfOk result (λ lists. vec_len lists ≡ 4) }
        ensures each { IfOk result (λ lists. All (λ l. (l.room ≡ room) × (l.items ≡ [])) lists.items) }
    {
        let mut lists = Vec::with_capacity(alloc, LISTS)?;
        for _i in 0..LISTS {
            lists.push_reserved(PendingList::new(alloc, room)?);
        }
        Ok(lists)
    }
}
