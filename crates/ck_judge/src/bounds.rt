//! The queries of a file with the least and the greatest place that the script allows each answer.

ghost use Rattle.std.specs.Prelude.{◌≡◌, ◌+◌, ◌-◌, ◌≤◌, ◌++◌, ℕ, List, map, length, slice_get, IfOk, OnOk, ◌∷◌, []};
ghost use Rattle.std.specs.List.{repeat};
ghost use Rattle.std.specs.Option.{unwrap_or};
ghost use Rattle.ck_script.specs.Script.{said_of, updates, holds, queries, bounded, HoldLine, greatest};
ghost use Rattle.ck_judge.specs.Bounds.{query_of, hold_line, AreLimits, RiseTo};

use ck_script::{AskLine, LineList, UpLine};
use std::alloc::{AllocError, Global};

/// A query, and the least and the greatest place that its answer may have.
#[derive(Clone, Copy, Debug)]
pub struct Bounded<K> {
    pub key: K,
    pub least: u64,
    pub greatest: u64,
}

/// A `hold` line: its file, its count, and how many updates stand before it.
#[derive(Clone, Copy, Debug)]
pub struct Held {
    pub file: u64,
    pub count: u64,
    pub after: u64,
}

/// The `hold` lines of an update file.
pub fn read_holds<C: Drop, U: LineList<UpLine<C>>>(
    alloc: Global,
    ups: &U,
) -> Result<Vec<Held>, AllocError>
    ensures { IfOk result (λ held. map hold_line held.items ≡ holds 0 (said_of (U.items ups.now))) }
{
    let mut held = Vec::new(alloc);
    let mut after: u64 = 0;
    for i in 0..ups.len() {
        match ups.what(i) {
            UpLine::Call(_) => after += 1,
            UpLine::Hold { file, n } => held.push(Held {
                file,
                count: n,
                after,
            })?,
        }
    }
    Ok(held)
}

/// The greatest places of the first queries of file f. Each later `hold` line stands after at least as many updates as
/// the earlier ones, so it bounds only the queries that they don't.
pub fn read_limits(alloc: Global, held: &[Held], f: u64) -> Result<Vec<u64>, AllocError>
    ensures { IfOk result (λ limits. (all m : ℕ) → RiseTo all m (map hold_line held.now) → AreLimits all f (map hold_line held.now) limits.items) }
{
    let mut limits = Vec::new(alloc);
    for line in held {
        limit_by(&mut limits, line, f)?;
    }
    Ok(limits)
}

// The limits with what one more `hold` line adds to them.
fn limit_by(limits: &mut Vec<u64>, line: &Held, f: u64) -> Result<(), AllocError>
    ensures { (all m i : ℕ) (hs : List HoldLine) → RiseTo all m (hold_line line.now ∷ hs) → OnOk result (unwrap_or (slice_get limits.new.items i) (greatest all f (i + 1) hs) ≡ unwrap_or (slice_get limits.old.items i) (greatest all f (i + 1) (hold_line line.now ∷ hs))) }
{
    if line.file != f {
        return Ok(());
    }
    extend(limits, line.count, line.after)?;
    Ok(())
}

// Appends the limit as often as it takes until there are so many.
fn extend(limits: &mut Vec<u64>, count: u64, limit: u64) -> Result<(), AllocError>
    ensures { OnOk result (limits.new.items ≡ limits.old.items ++ repeat (count - length limits.old.items) (limit ∷ [])) }
{
    while (limits.len() as u64) < count {
        limits.push(limit)?;
    }
    Ok(())
}

/// The queries of a file, whose first answers have these greatest places, and whose later ones any place up to `all`.
pub fn read_bounds<K: Copy, F: LineList<AskLine<K>>>(
    alloc: Global,
    lines: &F,
    limits: &[u64],
    all: u64,
) -> Result<Vec<Bounded<K>>, AllocError>
    ensures { IfOk result (λ bounds. (f : ℕ) (hs : List HoldLine) → AreLimits all f hs limits.now → map query_of bounds.items ≡ bounded all hs f 1 (queries 0 (said_of (F.items lines.now)))) }
{
    let mut bounds = Vec::new(alloc);
    let mut least: u64 = 0;
    for i in 0..lines.len() {
        match lines.what(i) {
            AskLine::Ask(key) => {
                let greatest = limit_at(limits, bounds.len(), all);
                bounds.push(Bounded {
                    key,
                    least,
                    greatest,
                })?;
            }
            AskLine::Wait { n } => least = least.max(n),
        }
    }
    Ok(bounds)
}

// The limit at an index, or `all` past the last one.
fn limit_at(limits: &[u64], at: usize, all: u64) -> u64
    ensures { result ≡ unwrap_or (slice_get limits.now at) all }
{
    limits.get(at).copied().unwrap_or(all)
}
