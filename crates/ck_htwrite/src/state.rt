//! The writer's own lists.
ghost use Rattle.std.specs.Prelude.{◌≡◌, ◌≢◌, ◌*◌, ◌+◌, ◌-◌, ◌≤◌, ◌^◌, ◌↔◌, IfOk, IfErr, IsErr, [], length, replicate};
ghost use Rattle.std.specs.FinSet as set;
ghost use Rattle.ck_words.specs.Buddies.{piece, with_pieces_out, free_words, ArePiecesApart, IsPieceOut, IsFree};
ghost use Rattle.ck_htlaw.specs.Layout.{arena, arena_words, counters_of, log_of};
ghost use Rattle.ck_htlaw.specs.Known.{IsRoot};
ghost use Rattle.ck_arena.specs.Arena.{HasNoneFree};
ghost use Rattle.ck_htwrite.specs.Arena.{region_piece, IsArenaOfTable, IsKept};
ghost use Rattle.ck_htwrite.specs.State.{IsShaped, most_words};

use ck_htlaw::HtClient;
use ck_words::{Back, Buddies};
use std::alloc::{AllocError, Global};

// The logarithm of the slots at opening.
const OPENING_LOG: u64 = 3;

// The shortest region has 8 slots of four words.
const LOG_MIN: u64 = 5;

// The words of the arena for each counter.
const LINE: u64 = 32;

// No region has more than 2^19 slots of four words.
const MOST_WORDS: u64 = 1 << 21;

/// What the writer keeps beside its token: a plain copy of the present region's words, which `plan` reads, since the writer loads none but the
/// root; the root that names it; how many of its slots are full and how many are tombstones; the counters of all regions; and the arena,
/// which says which pieces are out. Only `new` takes memory: a rebuild writes the copy of the new region in `spare`.
#[derive(Drop)]
pub struct HtState {
    pub(crate) words: Vec<u64>,
    pub(crate) spare: Vec<u64>,
    pub(crate) root: u64,
    pub(crate) keys: u64,
    pub(crate) tombstones: u64,
    pub(crate) counters: Vec<u64>,
    /// Which pieces are out. What was retired goes back to it once the domain has given its answer.
    pub arena: Buddies,
}

/// A piece of `2 ^ log` words that a call needs, where the state has none free. Its shelf is 0, that of pieces.
#[derive(Clone, Copy, PartialEq, Eq, Debug, Drop)]
pub struct Need {
    pub shelf: u64,
    pub log: u64,
}

// How many words the arena has, as a logarithm.
fn arena_log(client: &HtClient) -> u64
    requires most { client.now.arena_log ≤ 24 }
    ensures least { 5 ≤ result }
    ensures most { result ≤ 24 }
    ensures long { 2 ^ result ≡ arena_words (counters_of client.now) }
    ensures counters { 2 ^ (result - 5) ≡ counters_of client.now }
{
    client.arena_log.max(LOG_MIN)
}

/// How many counters a table has: one for each 32 words of its arena. No more regions can be out.
pub fn counter_count(client: &HtClient) -> u64
    requires most { client.now.arena_log ≤ 24 }
    ensures count { result ≡ counters_of client.now }
    ensures some { 1 ≤ result }
    ensures small { result ≤ 524288 }
{
    1 << (arena_log(client) - LOG_MIN)
}

// The words of the largest region.
fn largest(counters: u64) -> usize
    requires small { counters ≤ 524288 }
    ensures { result ≡ most_words counters }
{
    (LINE * counters).min(MOST_WORDS) as usize
}

impl HtState {
    /// The lists as at opening: eight slots at the arena's start, all of them empty. The only error is want of memory.
    pub fn new(alloc: Global, client: &HtClient) -> Result<HtState, AllocError>
        requires most { client.now.arena_log ≤ 24 }
        ensures state { IfOk result (λ s. s ≡ record s { root = 32 * arena (counters_of client.now) + 3; keys = 0; tombstones = 0 }) }
        ensures words { IfOk result (λ s. s.words.items ≡ replicate 32 0) }
        ensures counters { IfOk result (λ s. s.counters.items ≡ replicate (counters_of client.now) 0) }
        ensures shape { IfOk result (λ s. IsShaped (counters_of client.now) s) }
        ensures arena { IfOk result (λ s. (place : _) → IsKept (counters_of client.now) place s.root [] s.arena) }
    {
        let counters = counter_count(client);
        let room = largest(counters);
        let mut words = Vec::with_capacity(alloc, room)?;
        words.resize(4 << OPENING_LOG, 0)?;
        let spare = Vec::with_capacity(alloc, room)?;
        let mut arena = Buddies::new(alloc, 1 + counters, arena_log(client), LOG_MIN)?;
        let Some(at) = arena.take(OPENING_LOG + 2) else {
            unreachable!();
        };
        Ok(HtState {
            words,
            spare,
            root: 32 * at + OPENING_LOG,
            keys: 0,
            tombstones: 0,
            counters: vec![in alloc; 0; counters as usize]?,
            arena,
        })
    }

    /// How many slots the present region has.
    pub fn slots(&self) -> u64
        requires few { log_of self.now.root ≤ 19 }
        ensures { result ≡ 2 ^ log_of self.now.root }
    {
        1 << (self.root % 32)
    }

    /// How many words of the arena are free.
    pub fn free_words(&self) -> u64
        ensures count { result ≡ free_words self.now.arena }
        ensures apart { ArePiecesApart self.now.arena }
    {
        self.arena.free()
    }

    /// Takes back a region that was retired since it was taken, once the domain has given its answer. It is free then.
    pub fn give(&mut self, back: Back)
        requires out { IsPieceOut self.old.arena (piece back.at back.log) }

        // All pieces that are out were retired since they were taken, but the present region.
        requires retired { piece back.at back.log ≢ region_piece self.old.root }
        ensures after { self.new ≡ record self.old { arena = with_pieces_out self.old.arena (set.remove self.old.arena.out (piece back.at back.log)) } }
        ensures free { IsFree self.new.arena (piece back.at back.log) }
    {
        let _free = self.arena.free();
        self.arena.give(back.at, back.log);
    }

    // Takes a region of `2 ^ log` slots out, and gives its root. Need comes exactly where every range of its length, at a multiple of it from
    // the arena's start, has a word that is out.
    pub(crate) fn take(&mut self, log: u64) -> Result<u64, Need>
        requires table { IsArenaOfTable (length self.old.counters.items) self.old.arena }
        requires small { length self.old.counters.items ≤ 524288 }
        requires least { 3 ≤ log }
        requires most { log ≤ 19 }
        ensures root { IfOk result (λ root. IsRoot (length self.old.counters.items) root × (log_of root ≡ log)) }
        ensures free { IfOk result (λ root. IsFree self.old.arena (region_piece root) × ¬ IsPieceOut self.old.arena (region_piece root)) }
        ensures after { IfOk result (λ root. self.new ≡ record self.old { arena = with_pieces_out self.old.arena (set.insert self.old.arena.out (region_piece root)) }) }
        ensures need { IfErr result (λ need. (need ≡ record { shelf = 0; log = log + 2 }) × (self.new ≡ self.old)) }
        ensures none { IsErr result ↔ HasNoneFree self.old.arena (log + 2) }
    {
        let length = log + 2;
        let need = Need {
            shelf: Back::BUDDIES,
            log: length,
        };
        if 1 << length > LINE * self.counters.len() as u64 {
            return Err(need);
        }
        let Some(at) = self.arena.take(length) else {
            return Err(need);
        };
        Ok(32 * at + log)
    }
}
