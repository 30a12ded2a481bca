ghost use Rattle.std.specs.Prelude.{◌≡◌, ◌≤◌, length, IfOk};
ghost use Rattle.ck_history.specs.Lists.{ListState, list_step, empty_lists};

use crate::edit::{Edit, EditReply, MOST_MEMBERS};
use crate::members;
use std::alloc::{AllocError, Global};
use std::marker::Model;

/// `Lists` that take the memory for all members that they may have when they are made, so that no edit ever asks for any.
#[derive(Debug, Drop)]
pub struct FixedLists {
    pending: Vec<u64>,
    committed: Vec<u64>,
}

impl Model for FixedLists {
    ghost use Rattle.ck_history.specs.Lists.{ListState};
    ghost use Rattle.ck_history.specs.Room.{HasRoom};
    ghost use Rattle.ck_history.specs.declared.edit.TheConstants.{MOST_MEMBERS};

    ghost Value = { ListState };

    ghost view = { λ l. record { pending = l.pending.items; committed = l.committed.items } };

    ghost invariant = { λ l. HasRoom MOST_MEMBERS l.pending × HasRoom MOST_MEMBERS l.committed };
}

impl FixedLists {
    /// Two lists without members.
    pub fn new(alloc: Global) -> Result<FixedLists, AllocError>
        ensures { IfOk result (λ l. l ≡ empty_lists) }
    {
        Ok(FixedLists {
            pending: Vec::with_capacity(alloc, MOST_MEMBERS as usize)?,
            committed: Vec::with_capacity(alloc, MOST_MEMBERS as usize)?,
        })
    }

    /// The list as it was last committed. It has at most `MOST_MEMBERS`.
    pub fn committed(&self) -> &[u64]
        ensures all { result.now ≡ self.now.committed }
        ensures few { length self.now.committed ≤ MOST_MEMBERS }
    {
        &self.committed
    }

    /// The list that edits change. It has at most `MOST_MEMBERS`.
    pub fn pending(&self) -> &[u64]
        ensures all { result.now ≡ self.now.pending }
        ensures few { length self.now.pending ≤ MOST_MEMBERS }
    {
        &self.pending
    }

    /// Makes one edit, and answers its reply.
    pub fn apply(&mut self, e: Edit) -> EditReply
        ensures reply { result ≡ (list_step self.old e).1 }
        ensures lists { self.new ≡ (list_step self.old e).0 }
    {
        let made = match e {
            Edit::Add(v) => members::add(&mut self.pending, v),
            Edit::Drop(v) => Ok(members::drop_first(&mut self.pending, v)),
            Edit::Commit => {
                members::copy(&self.pending, &mut self.committed).map(|_| EditReply::Committed)
            }
        };
        made.unwrap()
    }
}
