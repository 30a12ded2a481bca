//! Pieces of a power of two words from one arena, as the binary buddy system hands them out.
ghost use Rattle.std.specs.Prelude.{◌≡◌, ℕ, ◌+◌, ◌-◌, ◌*◌, ◌/◌, ◌^◌, ◌<◌, ◌≤◌, ◌↔◌, IfOk, IfSome, IfNone, IsSome, IsNone, slice_index, length};
ghost use Rattle.std.specs.FinSet as set;
ghost use Rattle.ck_words.specs.Buddies.{Arena, Piece, piece, with_pieces_out, IsPieceOut, AddsPiece, DropsPiece, IsAlignedIn, IsFree, HasWordOut, ArePiecesApart, free_words};

use crate::tree::{descend, put_back, take_out};
use std::alloc::{AllocError, Global};
use std::marker::Model;

/// The length of a piece in words.
fn words_of(log: u64) -> u64
    requires { log < 64 }
    ensures { result ≡ 2 ^ log }
{
    1 << log
}

/// The place of a node's range.
fn place_of(first: u64, log_len: u64, node: usize, log: u64) -> u64
    requires place { first ≤ 2 ^ 32 }
    requires most { log_len ≤ 24 }
    requires piece { log ≤ log_len }
    requires from { 2 ^ log_len ≤ node * 2 ^ log }
    requires to { (node + 1) * 2 ^ log ≤ 2 * 2 ^ log_len }
    ensures { result + 2 ^ log_len ≡ first + node * 2 ^ log }
{
    first + (node as u64 * words_of(log) - words_of(log_len))
}

/// The node whose range is the piece.
fn node_of(first: u64, log_len: u64, at: u64, log: u64) -> usize
    requires most { log_len ≤ 24 }
    requires piece { log ≤ log_len }
    requires from { first ≤ at }
    requires to { at < first + 2 ^ log_len }
    ensures { result ≡ (2 ^ log_len + (at - first)) / 2 ^ log }
{
    ((words_of(log_len) + (at - first)) >> log) as usize
}

/// An arena of `2 ^ log_len` words from word `first` on, in pieces of `2 ^ log_min` words and more.
/// The length of a piece is a power of two, and its distance from `first` a multiple of its length.
#[derive(Drop)]
pub struct Buddies {
    first: u64,
    log_len: u64,
    log_min: u64,
    free: u64,
    halvings: Vec<u8>,
}

impl Model for Buddies {
    ghost use Rattle.ck_words.specs.Buddies.{Arena, arena_code};

    ghost Value = { Arena };

    ghost coded = { arena_code };

    ghost use Rattle.ck_words.specs.Buddies.{arena_of, IsArenaOf};

    ghost view = { λ b. arena_of b.first b.log_len b.log_min b.halvings.items };

    ghost invariant = { λ b. IsArenaOf b.first b.log_len b.log_min b.free b.halvings.items };
}

impl Buddies {
    /// An arena in which nothing is out. The only error is want of memory: all that the other calls
    /// need has its room from here.
    pub fn new(alloc: Global, first: u64, log_len: u64, log_min: u64) -> Result<Self, AllocError>
        requires least { 3 ≤ log_min }
        requires whole { log_min ≤ log_len }
        requires most { log_len ≤ 24 }
        requires place { first ≤ 2 ^ 32 }
        ensures { IfOk result (λ b. b ≡ record { first = first; log_len = log_len; log_min = log_min; out = set.empty }) }
    {
        let nodes = 2_usize << (log_len - log_min);
        Ok(Buddies {
            first,
            log_len,
            log_min,
            free: words_of(log_len),
            halvings: vec![in alloc; 0; nodes]?,
        })
    }

    /// Takes a piece of `2 ^ log` words out, and gives the place of its first word. `None` where no
    /// range of that length, at a multiple of it from `first`, is free.
    pub fn take(&mut self, log: u64) -> Option<u64>
        requires least { self.old.log_min ≤ log }
        requires most { log ≤ self.old.log_len }
        ensures placed { IfSome result (λ at. IsAlignedIn self.old (piece at log)) }
        ensures was_free { IfSome result (λ at. IsFree self.old (piece at log)) }
        ensures is_new { IfSome result (λ at. ¬ IsPieceOut self.old (piece at log)) }
        ensures is_out { IfSome result (λ at. IsPieceOut self.new (piece at log)) }
        ensures adds { IfSome result (λ at. AddsPiece self.old self.new (piece at log)) }
        ensures after { IfSome result (λ at. self.new ≡ with_pieces_out self.old (set.insert self.old.out (piece at log))) }

        // None comes exactly where each range of that length has a word that is out.
        ensures none { IsNone result ↔ ((at : ℕ) → IsAlignedIn self.old (piece at log) → HasWordOut self.old (piece at log)) }
        ensures unchanged { IfNone result (self.new ≡ self.old) }
        ensures whole { self.old.out ≡ set.empty → IsSome result }
        ensures first { self.old.out ≡ set.empty → IfSome result (λ at. at ≡ self.old.first) }
        ensures apart { ArePiecesApart self.new }
    {
        let depth = self.log_len - log;
        if u64::from(self.halvings[1]) > depth {
            return None;
        }
        let node = descend(&self.halvings, depth);
        take_out(&mut self.halvings, node);
        self.free -= words_of(log);
        Some(place_of(self.first, self.log_len, node, log))
    }

    /// Takes back the piece of `2 ^ log` words at `at`, which is out. It is merged with its buddy,
    /// and so on, as long as the buddy is free whole.
    pub fn give(&mut self, at: u64, log: u64)
        requires { IsPieceOut self.old (piece at log) }
        ensures drops { DropsPiece self.old self.new (piece at log) }
        ensures after { self.new ≡ with_pieces_out self.old (set.remove self.old.out (piece at log)) }
        ensures apart { ArePiecesApart self.new }
    {
        let node = node_of(self.first, self.log_len, at, log);
        put_back(&mut self.halvings, node);
        self.free += words_of(log);
    }

    /// The number of words that are free.
    pub fn free(&self) -> u64
        ensures count { result ≡ free_words self.now }
        ensures all { self.now.out ≡ set.empty → result ≡ 2 ^ self.now.log_len }
        ensures apart { ArePiecesApart self.now }
    {
        self.free
    }
}
