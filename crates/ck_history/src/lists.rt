ghost use Rattle.std.specs.Prelude.{◌≡◌, ◌⊎◌, IfOk, OnOk, OnErr};
ghost use Rattle.ck_history.specs.Lists.{ListState, list_step, empty_lists};
ghost use Rattle.ck_history.specs.declared.edit.Edit.TheVariants.{Commit};
ghost use Rattle.ck_history.specs.declared.edit.EditReply.TheVariants.{Added};

use crate::edit::{Edit, EditReply};
use crate::members;
use std::alloc::{AllocError, Global};
use std::marker::Model;

/// A pending list, which edits change, and a committed one, which readers are given: the plain body of the lists' definition.
#[derive(Debug, Drop)]
pub struct Lists {
    pending: Vec<u64>,
    committed: Vec<u64>,
}

impl Model for Lists {
    ghost use Rattle.ck_history.specs.Lists.{ListState};

    ghost Value = { ListState };

    ghost view = { λ l. record { pending = l.pending.items; committed = l.committed.items } };
}

impl Lists {
    /// Two lists without members. They take no memory yet.
    pub fn new(alloc: Global) -> Lists
        ensures { result ≡ empty_lists }
    {
        Lists {
            pending: Vec::new(alloc),
            committed: Vec::new(alloc),
        }
    }

    /// The list as it was last committed.
    pub fn committed(&self) -> &[u64]
        ensures { result.now ≡ self.now.committed }
    {
        &self.committed
    }

    /// The list that edits change.
    pub fn pending(&self) -> &[u64]
        ensures { result.now ≡ self.now.pending }
    {
        &self.pending
    }

    /// Makes one edit, and answers its reply. An `AllocError` comes only where a member would be appended, or at a commit, and changes nothing.
    pub fn apply(&mut self, e: Edit) -> Result<EditReply, AllocError>
        ensures reply { IfOk result (λ reply. reply ≡ (list_step self.old e).1) }
        ensures ok { OnOk result (self.new ≡ (list_step self.old e).0) }
        ensures err { OnErr result (self.new ≡ self.old) }
        ensures memory { OnErr result (((list_step self.old e).1 ≡ Added) ⊎ (e ≡ Commit)) }
    {
        match e {
            Edit::Add(v) => members::add(&mut self.pending, v),
            Edit::Drop(v) => Ok(members::drop_first(&mut self.pending, v)),
            Edit::Commit => {
                members::copy(&self.pending, &mut self.committed)?;
                Ok(EditReply::Committed)
            }
        }
    }
}

#[cfg(test)]
mod tests {
    use super::*;
    use crate::edit::MOST_MEMBERS;
    use std::test::Fail;

    #[test]
    fn answers_as_two_lists_do(rt: HostRuntime) -> Result<(), Fail> {
        use Edit::{Add, Commit, Drop};
        use EditReply::{Added, Committed, Dropped, Missing};
        // each case: an edit, its reply, and the two lists after it
        let cases = [
            (Add(3), Added, [3].as_slice(), [].as_slice()),
            (Add(4), Added, [3, 4].as_slice(), [].as_slice()),
            (Add(5), Added, [3, 4, 5].as_slice(), [].as_slice()),
            (Drop(3), Dropped, [5, 4].as_slice(), [].as_slice()),
            (Commit, Committed, [5, 4].as_slice(), [5, 4].as_slice()),
            (Drop(3), Missing, [5, 4].as_slice(), [5, 4].as_slice()),
            (Drop(4), Dropped, [5].as_slice(), [5, 4].as_slice()),
            (Commit, Committed, [5].as_slice(), [5].as_slice()),
        ];
        let mut lists = Lists::new(rt.alloc());
        for (edit, reply, pending, committed) in cases {
            assert_eq!(rt; lists.apply(edit)?, reply);
            assert_eq!(rt; lists.pending(), pending);
            assert_eq!(rt; lists.committed(), committed);
        }
        Ok(())
    }

    #[test]
    fn is_full_at_its_most_members(rt: HostRuntime) -> Result<(), Fail> {
        let mut lists = Lists::new(rt.alloc());
        for _ in 0..MOST_MEMBERS {
            assert_eq!(rt; lists.apply(Edit::Add(0))?, EditReply::Added);
        }
        assert_eq!(rt; lists.apply(Edit::Add(0))?, EditReply::Full);
        assert_eq!(rt; lists.apply(Edit::Drop(1))?, EditReply::Missing);
        assert_eq!(rt; lists.committed(), [].as_slice());
        Ok(())
    }
}
