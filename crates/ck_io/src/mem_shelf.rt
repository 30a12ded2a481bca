//! A shelf in memory, which fails where it is told to.
ghost use Rattle.std.specs.Prelude.{◌≡◌, ℕ, ◌≤◌, ◌<◌, ◌↔◌, ◌++◌, [], ◌∷◌, List, length, replicate, OnOk, OnErr, IfOk, IfErr, IfSome, vec_len, string_bytes, bytes_eq, position, slice_index, ◌^◌};
ghost use Rattle.ck_io.specs.Faults.{NeverFall};
ghost use Rattle.ck_io.specs.Shelf.{HasCause, IsSettled, IsTooLong, IsUnfailed};
ghost use Rattle.ck_io.specs.MemShelf.{Gives, bytes_under, faults_of, fetch_fails, FailsExactlyWhere, shelf_after, contents, padded, place, raised};

use crate::{Shelf, ShelfError};
use std::alloc::{AllocError, Global};
use std::marker::Model;

/// A shelf that holds the first file of each name. Contracts see a `ShelfState`.
#[derive(Drop)]
pub struct MemShelf {
    files: Vec<(String, Vec<u8>)>,
    fails: Vec<u64>,
    calls: u64,
    // The faults of the files' names. The first fetch makes room for them.
    counts: Vec<u64>,
    // The faults of the names that are not held.
    strays: u64,
}

impl Model for MemShelf {
    ghost use Rattle.std.specs.Prelude.{◌≤◌, ◌++◌, [], ◌∷◌, length};
    ghost use Rattle.ck_io.specs.MemShelf.{ShelfState, contents, padded};

    ghost Value = { ShelfState };

    ghost view = { λ s. record {
      files = contents s.files.items;
      fails = s.fails.items;
      calls = s.calls;
      counts = padded (length s.files.items) s.counts.items ++ s.strays ∷ [];
    } };

    ghost invariant = { λ s. length s.counts.items ≤ length s.files.items };
}

impl MemShelf {
    /// A shelf of these files. The calls whose numbers, from 1, stand in `fails` fail and raise the count of their
    /// name. A name that isn't held fails and raises its count too; all such names share one count.
    pub fn new(files: Vec<(String, Vec<u8>)>, fails: Vec<u64>) -> MemShelf
        ensures made { result ≡ record {
          files = contents files.items;
          fails = fails.items;
          calls = 0;
          counts = replicate (length files.items) 0 ++ 0 ∷ [];
        } }
        ensures unfailed { (name : List ℕ) → faults_of result name ≡ 0 }
    {
        let counts = Vec::new(*files.allocator());
        MemShelf {
            files,
            fails,
            calls: 0,
            counts,
            strays: 0,
        }
    }
}

/// The place of the first file of a name.
fn first_of(files: &[(String, Vec<u8>)], name: &str) -> Option<usize>
    ensures { result ≡ position (λ file. bytes_eq (string_bytes file.0) name.now) files.now }
{
    files.iter().position(|file| file.0.as_str() == name)
}

/// The place of the first file of a name, or the number of files.
pub(crate) fn place_of(files: &[(String, Vec<u8>)], name: &str) -> usize
    ensures place { result ≡ place (contents files.now) name.now }
    ensures within { result ≤ length files.now }
{
    first_of(files, name).unwrap_or(files.len())
}

/// Makes room for this many counts. The new ones are 0.
fn fill_up(counts: &mut Vec<u64>, count: usize) -> Result<(), AllocError>
    requires { length counts.old.items ≤ count }
    ensures same { padded count counts.new.items ≡ padded count counts.old.items }
    ensures full { OnOk result (length counts.new.items ≡ count) }
    ensures none { OnErr result (counts.new.items ≡ counts.old.items) }
{
    counts.resize(count, 0)
}

/// Raises the count at a place; past the files' counts it is that of the names that are not held.
fn raise(counts: &mut Vec<u64>, strays: &mut u64, place: usize)
    requires { place ≤ length counts.old.items }
    ensures raised { counts.new.items ++ strays.new ∷ [] ≡ raised (counts.old.items ++ strays.old ∷ []) place }
    ensures len { length counts.new.items ≡ length counts.old.items }
    ensures fits { slice_index (counts.old.items ++ strays.old ∷ []) place < 2 ^ 64 }
{
    if place < counts.len() {
        counts[place] = counts[place].saturating_add(1);
    } else {
        *strays = strays.saturating_add(1);
    }
}

impl MemShelf {
    /// Answers a fetch.
    fn answer(&mut self, alloc: Global, name: &str, limit: u64) -> Result<Vec<u8>, ShelfError>
        ensures gives { Gives (bytes_under self.old.files name.now) limit result }
        ensures fails { FailsExactlyWhere (fetch_fails self.old name.now) result }
        ensures after { self.new ≡ shelf_after self.old name.now result }
        ensures fits { result ≡ Err ShelfError.Failed → faults_of self.old name.now < 2 ^ 64 }
        ensures counted { place self.old.files name.now < length self.old.counts }
    {
        fill_up(&mut self.counts, self.files.len())?;
        let number = self.calls.saturating_add(1);
        let place = place_of(&self.files, name);
        if place >= self.files.len() || self.fails.contains(&number) {
            self.calls = number;
            raise(&mut self.counts, &mut self.strays, place);
            return Err(ShelfError::Failed);
        }
        let bytes = &self.files[place].1;
        if bytes.len() as u64 > limit {
            self.calls = number;
            return Err(ShelfError::TooLong { bytes: limit + 1 });
        }
        let copy = bytes.to_vec(alloc)?;
        self.calls = number;
        Ok(copy)
    }
}

impl Shelf for MemShelf {
    ghost held = { λ s. bytes_under s.files };

    ghost faults = { faults_of };

    fn fetch(&mut self, alloc: Global, name: &str, limit: u64) -> Result<Vec<u8>, ShelfError>
        ensures bytes { IfOk result (λ bytes. IfSome (bytes_under self.old.files name.now) (λ told. bytes.items ≡ told)) }
        ensures within { IfOk result (λ bytes. vec_len bytes ≤ limit) }
        ensures cause { IfErr result (HasCause (bytes_under self.old.files name.now) limit
            (faults_of self.old name.now) (faults_of self.new name.now)) }
        ensures too_long { IfSome (bytes_under self.old.files name.now) (λ told.
            IsSettled result → (IsTooLong result ↔ (limit < length told))) }
        ensures unchanged { bytes_under self.new.files ≡ bytes_under self.old.files }
        ensures lasting { NeverFall (faults_of self.old) (faults_of self.new) }
        ensures uncounted { IsUnfailed result → faults_of self.new ≡ faults_of self.old }

        // Every answer but want of memory, and the shelf after it.
        ensures fails { FailsExactlyWhere (fetch_fails self.old name.now) result }
        ensures after { self.new ≡ shelf_after self.old name.now result }
    {
        self.answer(alloc, name, limit)
    }
}
