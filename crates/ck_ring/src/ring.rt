//! The ring as threads see it, and its calls.
ghost use Rattle.std.specs.Prelude.{◌≡◌, ℕ, ◌+◌, ◌-◌, ◌<◌, ◌≤◌, ◌^◌, List, [], ◌∷◌, ◌++◌, length, vec_len, vec_capacity, replicate, MatchResult, IfOk, All, slice_index, ◌⊎◌};
ghost use Rattle.ck_run.specs.declared.account.Step.TheVariants.{Load, Exchange};
ghost use Rattle.ck_run.specs.Run.{call, entry};

use crate::answers::{Aim, Left, RingFull, Take};
use crate::ends::{Consumer, Producer};
use crate::layout::{HEAD, ITEMS, TAIL};
use ck_run::{Continues, Opening, Opens, Program, Token, Words};
use std::alloc::{AllocError, Global};
use std::marker::{Brand, Model};

/// The accounts that the calls of a ring make.
pub(crate) struct Calls;

impl Program<()> for Calls {
    ghost use Rattle.ck_run.specs.Machine.{follows_of};
    ghost use Rattle.ck_ring.specs.State.{ring};

    ghost follows = { follows_of ring };
}

/// A ring that threads share. Contracts see which table its words are, and how it began: word `HEAD` is the head, word `TAIL` the tail,
/// and position p lies in word `ITEMS` + p mod size.
#[derive(Drop)]
pub struct Ring {
    words: Words<(), Calls>,
    size: u64,
}

impl Model for Ring {
    ghost use Rattle.ck_run.specs.Tokens.{Table};
    ghost use Rattle.ck_ring.specs.State.{IsSized};

    ghost Value = { Table (Unit {0}) };

    ghost view = { λ r. r.words };

    ghost invariant = { λ r. IsSized r.size r.words.origin };
}

impl Ring {
    ghost use Rattle.ck_run.specs.Machine.{follows_of};
    ghost use Rattle.ck_run.specs.Tokens.{table, number, MayMake, Makes};
    ghost use Rattle.ck_run.specs.Ends.{fresh, AreFresh};
    ghost use Rattle.ck_ring.specs.declared.layout.TheConstants.{HEAD, TAIL, MOST_CALLS, MOST_SENT};
    ghost use Rattle.ck_ring.specs.State.{ring, state, size_of, aim, settle, try_dequeue, aimed, IsOpening, IsIdle, IsRingToken};
    ghost use Rattle.ck_ring.specs.Calls.{IsFull, RingHasRoom, Sends, Refuses, LookSteps, HasLooked, position_of, state_aimed, IsLater, WasEmpty, take_of, Settles, IsAbove, OwnsItem, IsInOrder, Tries};
    ghost use Rattle.ck_ring.specs.Ends.{AreAll, IsClosedRing, IsClosedInOrder};

    // The first step of `enqueue`, a load. The caller picks `O` by `argument`, which only contracts read: it is the value that is to be sent.
    fn first_load<O: Opens>(&self, token: &mut Token<()>, word: usize, argument: u64) -> u64
        requires table { table token.old ≡ self.now }
        requires word { word < length self.now.origin.words }
        requires may { (n : ℕ) → n < 2 ^ 64 → MayMake (follows_of ring) token.old (entry O.opens (Load word n)) }
        ensures table { table token.new ≡ table token.old }
        ensures step { Makes (follows_of ring) token.old (entry O.opens (Load word result)) token.new }
    {
        let _argument = argument;
        self.words.load::<O>(token, word)
    }

    /// Appends `v` to what was sent. Returns `RingFull`, and changes nothing, if and only if the tail is the size less one ahead of the
    /// head that this call loaded. As `ck_ring_enqueue_spmc`.
    pub fn enqueue(&self, p: &mut Producer, v: u64) -> Result<(), RingFull>
        requires table { table p.old ≡ self.now }
        requires calls { (state p.old).calls < MOST_SENT }
        ensures same { (table p.new ≡ table p.old) × (number p.new ≡ number p.old) }
        ensures steps { MatchResult result
            (λ _. (head : ℕ) × RingHasRoom (size_of self.now.origin) p.old head × Sends (size_of self.now.origin) p.old v head p.new)
            (λ full. IsFull (size_of self.now.origin) p.old full.head × Refuses p.old v full.head p.new) }
        ensures full { MatchResult result (λ _. Unit {0}) (λ full. full.tail ≡ length (state p.old).sent) }
        ensures sent { MatchResult result (λ _. (state p.new).sent ≡ (state p.old).sent ++ v ∷ []) (λ _. (state p.new).sent ≡ (state p.old).sent) }
        ensures calls { (state p.new).calls ≡ (state p.old).calls + 1 }
        ensures part { IsRingToken p.new }
    {
        // No one else stores the tail, so the producer knows it without a load.
        let tail = p.tail;
        let head = self.first_load::<Brand>(&mut p.token, HEAD, v);
        p.calls += 1;
        // One place stays free, as in Concurrency Kit, where a full ring would else look like an empty one. The head may have moved on since
        // it was loaded, which leaves more room and not less.
        if tail - head == self.size - 1 {
            return Err(RingFull { head, tail });
        }
        // The item before the tail: from the moment at which the tail counts it, a consumer may load it.
        self.words
            .store::<Continues>(&mut p.token, ITEMS + (tail % self.size) as usize, v);
        self.words.store::<Continues>(&mut p.token, TAIL, tail + 1);
        p.tail = tail + 1;
        Ok(())
    }

    // Loads the head, the tail and, where they differ, the item at the head.
    fn look<O: Opens>(&self, token: &mut Token<()>) -> Aim
        requires table { table token.old ≡ self.now }
        requires idle { IsIdle token.old (state token.old).calls }
        requires calls { (state token.old).calls < MOST_CALLS }
        requires name { (O.opens ≡ aim ∷ []) ⊎ (O.opens ≡ try_dequeue ∷ []) }
        ensures same { (table token.new ≡ table token.old) × (number token.new ≡ number token.old) }
        ensures looked { HasLooked (size_of self.now.origin) O.opens token.old result token.new }
    {
        // The head before the tail. The other way round the head could have passed the tail that was loaded, and the position would hold
        // nothing yet.
        let head = self.words.load::<O>(token, HEAD);
        let tail = self.words.load::<Continues>(token, TAIL);
        // The head is never above the tail. So where both were one number the head still stood there, and the ring was empty.
        if tail == head {
            return Aim::Empty { at: head };
        }
        // This may load what the producer stored since, one turn later, if others took the position. The exchange of the head tells.
        let item = self
            .words
            .load::<Continues>(token, ITEMS + (head % self.size) as usize);
        Aim::At { mine: head, item }
    }

    // Moves the head past the position `mine`, where it stands there.
    fn exchange_head<O: Opens>(&self, token: &mut Token<()>, mine: u64, item: u64) -> Take
        requires table { table token.old ≡ self.now }
        requires bound { mine < MOST_CALLS }
        requires may { (n : ℕ) → n < 2 ^ 64 → MayMake (follows_of ring) token.old (entry O.opens (Exchange HEAD mine (mine + 1) n)) }
        ensures same { (table token.new ≡ table token.old) × (number token.new ≡ number token.old) }
        ensures taken { (found : ℕ) × (result ≡ take_of mine item found) × Makes (follows_of ring) token.old (entry O.opens (Exchange HEAD mine (mine + 1) found)) token.new }
    {
        // Heads only rise, and positions aren't counted round: where the head is still `mine` no one took the position since it was loaded.
        // A producer stores over an item only once the head is past it, so the item that was loaded is the one that was sent there.
        let found = self.words.exchange::<O>(token, HEAD, mine, mine + 1);
        if found == mine {
            Take::Item(item)
        } else {
            Take::Lost { mine, found }
        }
    }

    /// Loads the head, then the tail and, where they differ, the item at the head. Returns `Empty` if and only if both loads gave one
    /// number, and then the ring was empty at the load of the tail. The first half of `ck_ring_trydequeue_spmc`.
    pub fn aim(&self, c: &mut Consumer) -> Aim
        requires table { table c.old ≡ self.now }
        requires calls { (state c.old).calls < MOST_CALLS }
        ensures same { (table c.new ≡ table c.old) × (number c.new ≡ number c.old) }
        ensures steps { LookSteps (size_of self.now.origin) (aim ∷ []) c.old result c.new }
        ensures empty { WasEmpty (aim ∷ []) c.old result }
        ensures later { IsLater c.old (position_of result) }
        ensures state { state c.new ≡ state_aimed (state c.old) (aim ∷ []) result }
        ensures calls { (state c.new).calls ≡ (state c.old).calls + 1 }
        ensures order { IsInOrder c.new }
        ensures part { IsRingToken c.new }
    {
        let aim = self.look::<Brand>(&mut c.token);
        c.calls += 1;
        aim
    }

    /// Takes what the last aim of this consumer found, by one compare-exchange of the head. Returns `Lost`, and changes nothing, if and
    /// only if the head had moved on. The second half of `ck_ring_trydequeue_spmc`.
    pub fn settle(&self, c: &mut Consumer, mine: u64, item: u64) -> Take
        requires table { table c.old ≡ self.now }
        requires calls { (state c.old).calls < MOST_CALLS }
        requires aimed { (state c.old).stage ≡ aimed mine item }
        ensures same { (table c.new ≡ table c.old) × (number c.new ≡ number c.old) }
        ensures steps { Settles c.old mine item result c.new }
        ensures calls { (state c.new).calls ≡ (state c.old).calls + 1 }
        ensures above { IsAbove mine result }
        ensures own { OwnsItem c.new mine result }
        ensures order { IsInOrder c.new }
        ensures part { IsRingToken c.new }
    {
        let take = self.exchange_head::<Brand>(&mut c.token, mine, item);
        c.calls += 1;
        take
    }

    /// Aims and settles, in one attempt. As `ck_ring_trydequeue_spmc`.
    pub fn try_dequeue(&self, c: &mut Consumer) -> Take
        requires table { table c.old ≡ self.now }
        requires calls { (state c.old).calls < MOST_CALLS }
        ensures same { (table c.new ≡ table c.old) × (number c.new ≡ number c.old) }
        ensures steps { Tries (size_of self.now.origin) c.old result c.new }
        ensures calls { (state c.new).calls ≡ (state c.old).calls + 1 }
        ensures order { IsInOrder c.new }
        ensures part { IsRingToken c.new }
    {
        let aim = self.look::<Brand>(&mut c.token);
        c.calls += 1;
        match aim {
            Aim::Empty { at } => Take::Empty { at },
            Aim::At { mine, item } => self.exchange_head::<Continues>(&mut c.token, mine, item),
        }
    }

    /// Returns an empty ring of the size 2 ^ `log_size`, which holds at most that many items less one, with its producer and its consumers.
    /// It fails only if out of memory.
    pub fn new(
        alloc: Global,
        log_size: u64,
        consumers: u64,
    ) -> Result<(Ring, Producer, Vec<Consumer>), AllocError>
        requires size { (2 ≤ log_size) × (log_size ≤ 20) }
        requires consumers { (1 ≤ consumers) × (consumers ≤ 64) }
        ensures words { IfOk result (λ r. r.0.origin.words ≡ replicate (2 ^ log_size + 2) 0) }
        ensures tokens { IfOk result (λ r. r.0.origin.tokens ≡ consumers + 1) }
        ensures producer { IfOk result (λ r. r.1 ≡ fresh r.0 0) }
        ensures consumers { IfOk result (λ r. (vec_len r.2 ≡ consumers) × AreFresh r.0 1 r.2.items) }
    {
        let size = 1u64 << log_size;
        let mut ends = Vec::with_capacity(alloc, consumers as usize)?;
        let opening = Opening {
            words: vec![in alloc; 0u64; size as usize + ITEMS]?,
            tokens: consumers + 1,
            config: (),
        };
        let (words, mut token, ()) = Words::new(alloc, opening)?;
        words.part_all(&mut token, &mut ends, consumers, Consumer::new);
        let producer = Producer {
            token,
            tail: 0,
            calls: 0,
        };
        Ok((Ring { words, size }, producer, ends))
    }

    /// Returns the words as they were left. All tokens are given back: each position below the head was taken once, with the value that was
    /// sent there, and the values from the head to below the tail are left in their places.
    pub fn close(self, p: Producer, cs: Vec<Consumer>) -> Left
        requires producer { table p ≡ self }
        requires consumers { All (λ c. table c ≡ self) cs.items }
        requires all { AreAll p cs.items }
        ensures served { IsClosedInOrder p cs.items result.words.items }
        ensures words { (result.head ≡ slice_index result.words.items HEAD) × (result.tail ≡ slice_index result.words.items TAIL) × (vec_len result.words ≡ length self.origin.words) }
        ensures run { IsClosedRing p cs.items result.words.items }
    {
        let Ring {
            words: shared,
            size: _,
        } = self;
        let Producer { mut token, .. } = p;
        shared.join_all(&mut token, cs, Consumer::into_token);
        let words = shared.close(token, 0);
        Left {
            head: words[HEAD],
            tail: words[TAIL],
            words,
        }
    }
}
