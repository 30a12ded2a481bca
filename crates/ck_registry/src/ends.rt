//! The tokens of a registry. Contracts see of each its account, which is the list of the steps that were made with it.
ghost use Rattle.std.specs.Prelude.{◌≡◌, ◌<◌, length};
ghost use Rattle.ck_run.specs.Tokens.{number, origin};
ghost use Rattle.ck_registry.specs.State.{state, records_of};
ghost use Rattle.ck_registry.specs.Ends.{rec_of, depth};

use crate::deferred::Deferred;
use ck_run::Token;
use std::marker::Model;

/// A token without a record. Nothing that it retired is pending, and nothing waits.
#[derive(Drop)]
pub struct Visitor {
    pub(crate) token: Token<u64>,
    pub(crate) deferred: Deferred,
    pub(crate) calls: u64,
}

impl Model for Visitor {
    ghost use Rattle.std.specs.Prelude.{◌≤◌};
    ghost use Rattle.ck_registry.specs.State.{state};
    ghost use Rattle.ck_registry.specs.Ends.{Visitor as VisitorOf, IsVisitor};

    ghost Value = { VisitorOf };

    ghost view = { λ v. record { token = v.token; calls = v.calls; room = v.deferred.room } };

    ghost invariant = { λ v. IsVisitor v.token v.deferred × ((state v.token).calls ≤ v.calls) };
}

/// A visitor that holds a record. A thread that has it opens sections, retires items and polls, and no other member holds that record.
#[derive(Drop)]
#[repr(C)]
pub struct Member {
    // Each section changes `depth` and `calls`. Members may stand side by side, each used by another thread: without room around them two
    // threads would write to one cache line.
    pub(crate) before: [u64; PAD],
    pub(crate) token: Token<u64>,
    pub(crate) deferred: Deferred,
    pub(crate) rec: u64,
    pub(crate) depth: u64,
    pub(crate) calls: u64,
    pub(crate) after: [u64; PAD],
}

// How many unused words stand on each side of a member: with the next member's these are two cache lines.
pub(crate) const PAD: usize = 8;

impl Model for Member {
    ghost use Rattle.std.specs.Prelude.{◌≤◌};
    ghost use Rattle.ck_registry.specs.State.{state};
    ghost use Rattle.ck_registry.specs.Ends.{Member as MemberOf, IsHolder, AreDeferred};

    ghost Value = { MemberOf };

    ghost view = { λ m. record { token = m.token; calls = m.calls; waiting = m.deferred.waiting; room = m.deferred.room } };

    ghost invariant = { λ m. IsHolder m.token m.rec m.depth × AreDeferred m.token m.deferred × ((state m.token).calls ≤ m.calls) };
}

impl Visitor {
    // Its token.
    pub(crate) fn into_token(self) -> Token<u64>
        ensures { result ≡ self.token }
    {
        let Visitor { token, .. } = self;
        token
    }

    /// How many counted calls were made with it: each that took it as a member by `&mut`.
    pub fn calls(&self) -> u64
        ensures { result ≡ self.now.calls }
    {
        self.calls
    }
}

impl Member {
    /// The number of the record that it holds, from 0.
    pub fn rec(&self) -> u64
        ensures rec { result ≡ rec_of self.now.token }
        ensures low { result < records_of (origin self.now.token) }
    {
        self.rec
    }

    /// How many nested sections are open.
    pub fn depth(&self) -> u64
        ensures { result ≡ depth self.now.token }
    {
        self.depth
    }

    /// How many items are pending.
    pub fn pending(&self) -> u64
        ensures { result ≡ length (state self.now.token).pending }
    {
        self.deferred.pending()
    }

    /// How many items were dispatched and wait for `next_item`.
    pub fn waiting(&self) -> u64
        ensures { result ≡ length self.now.waiting }
    {
        self.deferred.waiting()
    }

    /// How many counted calls were made with it: each that took it by `&mut`, also while it held another record.
    pub fn calls(&self) -> u64
        ensures { result ≡ self.now.calls }
    {
        self.calls
    }
}
