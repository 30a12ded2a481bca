//! What the writer of an array keeps of its own.
ghost use Rattle.std.specs.Prelude.{◌≡◌, ◌≤◌, ◌↔◌, IfOk, IfSome, IfNone, IsNone, [], length};
ghost use Rattle.ck_words.specs.Buddies.{free_words, AddsPiece, ArePiecesApart, IsFree, IsPieceOut};
ghost use Rattle.ck_history.specs.declared.edit.TheConstants.{MOST_MEMBERS};
ghost use Rattle.ck_history.specs.Lists.{empty_lists};
ghost use Rattle.ck_arena.specs.Arena.{HasNoneFree, IsKept};
ghost use Rattle.ck_arraylaw.specs.Layout.{first_region, log_for, IsArrayItem, IsRegion};
ghost use Rattle.ck_array.specs.Writes.{largest_log, region_piece, IsArenaOfArray};

use ck_arena::Pieces;
use ck_arraylaw::{ARENA, ARENA_LOG, ArrayClient, LEAST_LOG};
use ck_epoch::Item;
use ck_history::FixedLists;
use ck_signal::Signals;
use ck_words::Buddies;
use std::alloc::{AllocError, Global};

// The logarithm of the words of a region with the most members.
const LARGEST_LOG: u64 = 13;

// The logarithm of the words of a region for so many members and one word more.
fn region_log(members: u64) -> u64
    requires few { members ≤ MOST_MEMBERS }
    ensures log { result ≡ log_for members }
    ensures bounds { (3 ≤ result) × (result ≤ largest_log) }
{
    for log in LEAST_LOG..LARGEST_LOG {
        if members < 1 << log {
            return log;
        }
    }
    LARGEST_LOG
}

/// What the writer keeps beside its token: its own lists, the arena, which says which pieces are out, and the region that is published. Only
/// `new` takes memory.
#[derive(Drop)]
pub struct ArrayState {
    pub(crate) lists: FixedLists,
    pub(crate) arena: Buddies,
    pub(crate) region: Item,
}

impl Pieces<Signals<ArrayClient>> for ArrayState {
    ghost use Rattle.ck_arraylaw.specs.Layout.{IsArrayItem};
    ghost use Rattle.ck_arraylaw.specs.Reached.{with_signals};
    ghost use Rattle.ck_arraylaw.specs.Regions.{place_in};

    ghost place = { place_in with_signals };

    ghost is_item = { λ o. IsArrayItem (place_in with_signals o) };
}

impl ArrayState {
    /// The state at opening: lists without members, and a region of eight words at the arena's start. The only error is want of memory.
    pub fn new(alloc: Global) -> Result<ArrayState, AllocError>
        ensures lists { IfOk result (λ s. s.lists ≡ empty_lists) }
        ensures region { IfOk result (λ s. s.region ≡ first_region) }
        ensures arena { IfOk result (λ s. IsArenaOfArray s.arena) }
        ensures kept { IfOk result (λ s. (place : _) → IsKept (IsArrayItem place) place (region_piece s.region) [] s.arena) }
    {
        let lists = FixedLists::new(alloc)?;
        let mut arena = Buddies::new(alloc, ARENA, ARENA_LOG, LEAST_LOG)?;
        let Some(at) = arena.take(LEAST_LOG) else {
            unreachable!();
        };
        let region = Item { at, log: LEAST_LOG };
        Ok(ArrayState {
            lists,
            arena,
            region,
        })
    }

    /// How many words of the arena are free.
    pub fn free_words(&self) -> u64
        ensures count { result ≡ free_words self.now.arena }
        ensures apart { ArePiecesApart self.now.arena }
    {
        self.arena.free()
    }

    // Takes a region for the pending list out. None comes exactly where every range of its length, at a multiple of it from the arena's start,
    // has a word that is out.
    pub(crate) fn take(&mut self) -> Option<Item>
        requires arena { IsArenaOfArray self.old.arena }
        ensures region { IfSome result (λ r. IsRegion r × (r.log ≡ log_for (length self.old.lists.pending)) × (r.log ≤ largest_log)) }
        ensures free { IfSome result (λ r. IsFree self.old.arena (region_piece r) × ¬ IsPieceOut self.old.arena (region_piece r)) }
        ensures adds { IfSome result (λ r. AddsPiece self.old.arena self.new.arena (region_piece r)) }
        ensures arena { IsArenaOfArray self.new.arena }
        ensures same { self.new ≡ record self.old { arena = self.new.arena } }
        ensures unchanged { IfNone result (self.new ≡ self.old) }
        ensures none { IsNone result ↔ HasNoneFree self.old.arena (log_for (length self.old.lists.pending)) }
    {
        let log = region_log(self.lists.pending().len() as u64);
        match self.arena.take(log) {
            Some(at) => Some(Item { at, log }),
            None => None,
        }
    }
}
