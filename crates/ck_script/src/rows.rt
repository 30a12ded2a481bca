//! Numbered rows in little room.
ghost use Rattle.std.specs.Prelude.{◌≡◌, ℕ, ◌+◌, ◌<◌, ◌≤◌, ◌^◌, ◌%◌, ◌++◌, ◌∷◌, [], length, slice_get, Some, IfOk, OnOk, OnErr};
ghost use Rattle.ck_script.specs.Columns.{ahead_at, AreAscending, AreJumps, kind_of, number_in, AreMore};

use std::alloc::{AllocError, Global};
use std::marker::Model;

/// A line in parts: its number in its file, of which kind it is, a number that it says, and the rest of what it says.
#[derive(Clone, Copy, Debug)]
pub struct Row<R> {
    pub line: u64,
    pub kind: u8,
    pub number: u128,
    pub rest: R,
}

/// From this number on what stands beside a row is its kind and this, and what stands in its cell is the place of its
/// number among the wide ones.
const WIDE: u8 = 128;

/// A list of rows. A row takes 9 bytes and what its rest takes, 16 more where its number has more than 64 bits, and 16
/// more where its line isn't the next after that of the row before.
#[derive(Debug, Drop)]
pub struct Rows<R: Copy + Drop> {
    // The kind of each row, and `WIDE` more where its number is wide.
    kinds: Vec<u8>,
    // The number of each row, or its place among the wide ones, and the rest.
    cells: Vec<(u64, R)>,
    wides: Vec<u128>,
    // Where the lines run ahead of the rows by another number than before: the place of the row, and the number.
    jumps: Vec<(usize, u64)>,
    // By how much they run ahead after the last jump.
    ahead: u64,
}

impl<R: Copy + Drop> Model for Rows<R> {
    ghost use Rattle.std.specs.Prelude.{List};
    ghost use Rattle.ck_script.specs.declared.rows.Row.{Row};
    ghost use Rattle.ck_script.specs.Columns.{rows_of, AreRowsKept};

    ghost Value = { List (Row R) };

    ghost view = { λ b. rows_of b.jumps.items b.wides.items 0 b.kinds.items b.cells.items };

    ghost invariant = { λ b. AreRowsKept b.jumps.items b.wides.items b.ahead b.kinds.items b.cells.items };
}

impl<R: Copy + Drop> Rows<R> {
    /// No rows. They take no memory yet.
    pub fn new(alloc: Global) -> Rows<R>
        ensures { result ≡ [] }
    {
        Rows {
            kinds: Vec::new(alloc),
            cells: Vec::new(alloc),
            wides: Vec::new(alloc),
            jumps: Vec::new(alloc),
            ahead: 1,
        }
    }

    /// How many rows there are.
    pub fn len(&self) -> usize
        ensures { result ≡ length self.now }
    {
        self.kinds.len()
    }

    /// Adds a row at the end. An `AllocError` leaves the rows as they were.
    pub fn push(&mut self, row: Row<R>) -> Result<(), AllocError>
        requires { row.kind < 128 }
        ensures ok { OnOk result (self.new ≡ self.old ++ row ∷ []) }
        ensures err { OnErr result (self.new ≡ self.old) }
    {
        note_line(&mut self.jumps, &mut self.ahead, self.kinds.len(), row.line)?;
        let (kind, low) = note_number(&mut self.wides, row.kind, row.number)?;
        push_both(&mut self.kinds, &mut self.cells, kind, (low, row.rest))
    }

    /// The number of the line of the row at place i.
    pub fn line(&self, i: usize) -> u64
        requires { i < length self.now }
        ensures { (row : Row R) → slice_get self.now i ≡ Some row → result ≡ row.line }
    {
        (i as u64).wrapping_add(ahead_of(&self.jumps, i))
    }

    /// The kind of the row at place i, its number and its rest.
    pub fn parts(&self, i: usize) -> (u8, u128, R)
        requires { i < length self.now }
        ensures { (row : Row R) → slice_get self.now i ≡ Some row → result ≡ (row.kind, row.number, row.rest) }
    {
        let kind = self.kinds[i];
        let (low, rest) = self.cells[i];
        if kind < WIDE {
            (kind, low as u128, rest)
        } else {
            (kind - WIDE, self.wides[low as usize], rest)
        }
    }
}

// Adds a jump where the line of the row at this place, after all others, isn't the one that the jumps tell.
fn note_line(
    jumps: &mut Vec<(usize, u64)>,
    ahead: &mut u64,
    place: usize,
    line: u64,
) -> Result<(), AllocError>
    requires { AreJumps jumps.old.items ahead.old place }
    ensures jumps { AreJumps jumps.new.items ahead.new place }
    ensures before { (i : ℕ) → i < place → ahead_at jumps.new.items i ≡ ahead_at jumps.old.items i }
    ensures line { OnOk result ((place + ahead.new) % 2 ^ 64 ≡ line) }
{
    let now = line.wrapping_sub(place as u64);
    if now != *ahead {
        jumps.push((place, now))?;
        *ahead = now;
    }
    Ok(())
}

// What is to stand beside a row of this kind, and in its cell for this number, which is added to the wide ones if it is one.
fn note_number(wides: &mut Vec<u128>, kind: u8, number: u128) -> Result<(u8, u64), AllocError>
    requires { kind < 128 }
    ensures kind { IfOk result (λ x. kind_of x.0 ≡ kind) }
    ensures number { IfOk result (λ x. number_in wides.new.items x.0 x.1 ≡ number) }
    ensures within { IfOk result (λ x. 128 ≤ x.0 → x.1 < length wides.new.items) }
    ensures more { AreMore wides.old.items wides.new.items }
{
    if number < 1 << 64 {
        return Ok((kind, number as u64));
    }
    let place = wides.len() as u64;
    wides.push(number)?;
    Ok((kind + WIDE, place))
}

// Adds one to each list, or to neither.
fn push_both<A: Drop, B: Drop>(
    xs: &mut Vec<A>,
    ys: &mut Vec<B>,
    x: A,
    y: B,
) -> Result<(), AllocError>
    ensures ok { OnOk result ((xs.new.items ≡ xs.old.items ++ x ∷ []) × (ys.new.items ≡ ys.old.items ++ y ∷ [])) }
    ensures err { OnErr result ((xs.new.items ≡ xs.old.items) × (ys.new.items ≡ ys.old.items)) }
{
    ys.push(y)?;
    if xs.push(x).is_err() {
        ys.pop();
        return Err(AllocError);
    }
    Ok(())
}

// By how much lines run ahead of rows at place i. It takes time in the logarithm of the number of jumps.
fn ahead_of(jumps: &[(usize, u64)], i: usize) -> u64
    requires { AreAscending jumps.now }
    ensures { result ≡ ahead_at jumps.now i }
{
    let mut low = 0;
    let mut high = jumps.len();
    while low < high {
        let middle = low + (high - low) / 2;
        if jumps[middle].0 <= i {
            low = middle + 1;
        } else {
            high = middle;
        }
    }
    if low == 0 { 1 } else { jumps[low - 1].1 }
}
