//! How a registry is made, and how it is closed.
ghost use Rattle.std.specs.Prelude.{◌≡◌, ℕ, ◌+◌, ◌-◌, ◌<◌, ◌≤◌, ◌^◌, [], ◌∷◌, length, vec_len, vec_capacity, IfOk, All};
ghost use Rattle.ck_run.specs.Tokens.{Table, table};
ghost use Rattle.ck_run.specs.Ends.{fresh, AreFresh};
ghost use Rattle.ck_registry.specs.State.{IsOpening};
ghost use Rattle.ck_registry.specs.Closing.{opened, AreFreshVisitors, AreAllVisitors, IsClosedRegistry};

use crate::deferred::Deferred;
use crate::ends::Visitor;
use crate::layout::state_word;
use crate::registry::Registry;
use ck_epoch::{FIRST_EPOCH, GLOBAL, epoch_word};
use ck_run::{Opening, Token, Words};
use std::alloc::{AllocError, Global};

// The words at opening.
fn opening_words(alloc: Global, records: u64) -> Result<Vec<u64>, AllocError>
    requires records { (1 ≤ records) × (records ≤ 64) }
    ensures { IfOk result (λ words. (visitors : ℕ) → visitors ≤ 64 → IsOpening (opened records visitors words.items)) }
{
    let mut words = vec![in alloc; 0u64; state_word(records, records)]?;
    words[GLOBAL] = FIRST_EPOCH;
    for rec in 0..records {
        words[epoch_word(rec)] = FIRST_EPOCH;
    }
    Ok(words)
}

// What is made of each token that is given out.
fn same_token(number: u64, token: Token<u64>) -> Token<u64>
    ensures { result ≡ token }
{
    let _number = number; // the token knows it
    token
}

impl Visitor {
    // The visitor of a token that made no step, with room for so many items.
    fn new(alloc: Global, token: Token<u64>, room: u64) -> Result<Visitor, AllocError>
        requires fresh { (table : Table ℕ) × (n : ℕ) × (token ≡ fresh table n) × (n < table.origin.tokens) × IsOpening table.origin }
        requires room { room ≤ 2 ^ 16 }
        ensures { IfOk result (λ v. v ≡ record { token = token; calls = 0; room = room }) }
    {
        let deferred = Deferred::new(alloc, room as usize)?;
        Ok(Visitor {
            token,
            deferred,
            calls: 0,
        })
    }
}

// The visitors of these tokens, in their order.
fn visitors_of(
    alloc: Global,
    first: Token<u64>,
    others: Vec<Token<u64>>,
    room: u64,
) -> Result<Vec<Visitor>, AllocError>
    requires fresh { (table : Table ℕ) × (first ≡ fresh table 0) × AreFresh table 1 others.items × (table.origin.tokens ≡ vec_len others + 1) × IsOpening table.origin }
    requires few { vec_len others < 64 }
    requires room { room ≤ 2 ^ 16 }
    ensures { (table : Table ℕ) → first ≡ fresh table 0 → AreFresh table 1 others.items → IfOk result (λ vs. (vec_len vs ≡ vec_len others + 1) × AreFreshVisitors table room 0 vs.items) }
{
    let mut visitors = Vec::with_capacity(alloc, others.len() + 1)?;
    visitors.push_reserved(Visitor::new(alloc, first, room)?);
    for token in others {
        visitors.push_reserved(Visitor::new(alloc, token, room)?);
    }
    Ok(visitors)
}

impl Registry {
    /// A registry with so many records, all of them free, and its visitors, each with room for so many items that are pending or wait. The
    /// only error is want of memory.
    pub fn new(
        alloc: Global,
        records: u64,
        visitors: u64,
        room: u64,
    ) -> Result<(Registry, Vec<Visitor>), AllocError>
        requires records { (1 ≤ records) × (records ≤ 64) }
        requires visitors { (1 ≤ visitors) × (visitors ≤ 64) }
        requires room { (1 ≤ room) × (room ≤ 2 ^ 16) }
        ensures origin { IfOk result (λ r. (r.0.origin.config ≡ records) × (r.0.origin.tokens ≡ visitors)) }
        ensures words { IfOk result (λ r. IsOpening r.0.origin) }
        ensures visitors { IfOk result (λ r. (vec_len r.1 ≡ visitors) × AreFreshVisitors r.0 room 0 r.1.items) }
        ensures made { IfOk result (λ r. All (λ v. table v.token ≡ r.0) r.1.items) }
        ensures all { IfOk result (λ r. AreAllVisitors r.0 r.1.items) }
    {
        let mut others = Vec::with_capacity(alloc, (visitors - 1) as usize)?;
        let opening = Opening {
            words: opening_words(alloc, records)?,
            tokens: visitors,
            config: records,
        };
        let (words, mut first, records) = Words::new(alloc, opening)?;
        words.part_all(&mut first, &mut others, visitors - 1, same_token);
        let given = visitors_of(alloc, first, others, room)?;
        Ok((Registry { words, records }, given))
    }

    /// Closes the registry. All visitors are given back, so that no member is left: what they did are the parts of one true run, and in it no
    /// item was dispatched while a section that is older was open.
    pub fn close(self, visitors: Vec<Visitor>)
        requires visitors { All (λ v. table v.token ≡ self) visitors.items }
        requires all { AreAllVisitors self visitors.items }
        ensures run { IsClosedRegistry self visitors.items }
    {
        let Registry { words, records: _ } = self;
        let mut others = visitors;
        let mut first = others.remove(0).into_token();
        words.join_all(&mut first, others, Visitor::into_token);
        words.close(first, 0);
    }
}
