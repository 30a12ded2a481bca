//! Blocks of 8 words from one arena.
ghost use Rattle.std.specs.Prelude.{◌≡◌, ℕ, ◌+◌, ◌-◌, ◌*◌, ◌/◌, ◌^◌, ◌<◌, ◌≤◌, ◌↔◌, IfOk, IfSome, IfNone, IsSome, IsNone, slice_index, length};
ghost use Rattle.std.specs.FinSet as set;
ghost use Rattle.ck_words.specs.Blocks.{BlockArena, with_blocks_out, IsBlockOut, AddsBlock, DropsBlock, IsBlock, AreBlocksApart};

use std::alloc::{AllocError, Global};
use std::marker::Model;

/// The length of a block in words.
const BLOCK_WORDS: u64 = 8;

/// An arena of blocks of 8 words, side by side from word `first` on.
#[derive(Drop)]
pub struct Blocks {
    first: u64,
    /// The first `free` of `numbers` are the numbers of the free blocks.
    free: usize,
    numbers: Vec<u32>,
}

impl Model for Blocks {
    ghost use Rattle.ck_words.specs.Blocks.{BlockArena, block_arena_code};

    ghost Value = { BlockArena };

    ghost coded = { block_arena_code };

    ghost use Rattle.ck_words.specs.Blocks.{blocks_of, IsBlocksOf};

    ghost view = { λ b. blocks_of b.first b.free b.numbers.items };

    ghost invariant = { λ b. IsBlocksOf b.first b.free b.numbers.items };
}

impl Blocks {
    /// An arena of `count` blocks, all of them free. The only error is want of memory: all that the
    /// other calls need has its room from here.
    pub fn new(alloc: Global, first: u64, count: u64) -> Result<Self, AllocError>
        requires { first + 8 * count ≤ 2 ^ 32 }
        ensures { IfOk result (λ b. b ≡ record { first = first; count = count; out = set.empty }) }
    {
        Ok(Blocks {
            first,
            free: count as usize,
            numbers: numbers_below(alloc, count)?,
        })
    }

    /// Takes a block out, and gives the place of its first word. `None` where all blocks are out.
    pub fn take(&mut self) -> Option<u64>
        ensures placed { IfSome result (IsBlock self.old) }
        ensures was_free { IfSome result (λ at. ¬ IsBlockOut self.old at) }
        ensures is_out { IfSome result (IsBlockOut self.new) }
        ensures adds { IfSome result (AddsBlock self.old self.new) }
        ensures after { IfSome result (λ at. self.new ≡ with_blocks_out self.old (set.insert self.old.out at)) }

        // None comes exactly where no block is free.
        ensures none { IsNone result ↔ ((at : ℕ) → IsBlock self.old at → IsBlockOut self.old at) }
        ensures unchanged { IfNone result (self.new ≡ self.old) }
        ensures apart { AreBlocksApart self.new }
    {
        if self.free == 0 {
            return None;
        }
        self.free -= 1;
        Some(self.first + BLOCK_WORDS * u64::from(self.numbers[self.free]))
    }

    /// Takes back the block at `at`, which is out.
    pub fn give(&mut self, at: u64)
        requires { IsBlockOut self.old at }
        ensures drops { DropsBlock self.old self.new at }
        ensures after { self.new ≡ with_blocks_out self.old (set.remove self.old.out at) }
        ensures apart { AreBlocksApart self.new }
    {
        self.numbers[self.free] = ((at - self.first) / BLOCK_WORDS) as u32;
        self.free += 1;
    }

    /// The number of blocks that are free.
    pub fn free(&self) -> u64
        ensures count { result + set.len self.now.out ≡ self.now.count }
        ensures apart { AreBlocksApart self.now }
    {
        self.free as u64
    }
}

/// The numbers below `count`, from the last down, so that the first block is taken first.
fn numbers_below(alloc: Global, count: u64) -> Result<Vec<u32>, AllocError>
    requires { count ≤ 2 ^ 29 }
    ensures length { IfOk result (λ v. length v.items ≡ count) }
    ensures falling { IfOk result (λ v. (i : ℕ) → i < count → slice_index v.items i + i + 1 ≡ count) }
{
    let mut numbers = Vec::with_capacity(alloc, count as usize)?;
    for i in 0..count {
        numbers.push((count - 1 - i) as u32)?;
    }
    Ok(numbers)
}
