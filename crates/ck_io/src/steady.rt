//! A shelf and a sink that never fail.
ghost use Rattle.std.specs.Prelude.{◌≡◌, ◌+◌, ◌-◌, ◌^◌, length, min, Some, None};
ghost use Rattle.ck_io.specs.MemShelf.{contents, bytes_or_none};

use crate::mem_shelf::place_of;
use crate::{Shelf, ShelfError, Sink, SinkFailed};
use std::alloc::Global;
use std::marker::Model;

/// A shelf that holds the first file of each name, and no bytes under any other name. Its counts are the constant 0.
/// Contracts see the files, as names with their bytes.
#[derive(Drop)]
pub struct SteadyShelf {
    files: Vec<(String, Vec<u8>)>,
}

impl Model for SteadyShelf {
    ghost use Rattle.std.specs.Prelude.{ℕ, List};
    ghost use Rattle.ck_io.specs.MemShelf.{contents};

    ghost Value = { List (List ℕ × List ℕ) };

    ghost view = { λ s. contents s.files.items };
}

impl SteadyShelf {
    /// A shelf of these files.
    pub fn new(files: Vec<(String, Vec<u8>)>) -> SteadyShelf
        ensures { result ≡ contents files.items }
    {
        SteadyShelf { files }
    }
}

impl Shelf for SteadyShelf {
    ghost held = { λ files name. Some (bytes_or_none files name) };

    ghost faults = { λ _ _. 0 };

    fn fetch(&mut self, alloc: Global, name: &str, limit: u64) -> Result<Vec<u8>, ShelfError> {
        let place = place_of(&self.files, name);
        if place >= self.files.len() {
            return Ok(Vec::new(alloc));
        }
        let bytes = &self.files[place].1;
        if bytes.len() as u64 > limit {
            return Err(ShelfError::TooLong { bytes: limit + 1 });
        }
        Ok(bytes.to_vec(alloc)?)
    }
}

/// A sink that takes every piece whole and keeps only how many bytes that were. It doesn't tell what was taken, and
/// its count of faults is the constant 0. Contracts see the number of bytes.
#[derive(Drop)]
pub struct SteadySink {
    bytes: u64,
}

impl Model for SteadySink {
    ghost use Rattle.std.specs.Prelude.{ℕ};

    ghost Value = { ℕ };

    ghost view = { λ s. s.bytes };
}

impl SteadySink {
    /// A sink that has taken nothing yet.
    pub fn new() -> SteadySink
        ensures { result ≡ 0 }
    {
        SteadySink { bytes: 0 }
    }

    /// How many bytes were taken, standing still at 2^64 - 1.
    pub fn bytes(&self) -> u64
        ensures { result ≡ self.now }
    {
        self.bytes
    }
}

impl Sink for SteadySink {
    ghost taken = { λ _. None };

    ghost faults = { λ _. 0 };

    fn put(&mut self, piece: &[u8]) -> Result<u64, SinkFailed>
        ensures whole { result ≡ Ok (length piece.now) }
        ensures counted { self.new ≡ min (self.old + length piece.now) (2 ^ 64 - 1) }
    {
        let count = piece.len() as u64;
        self.bytes = self.bytes.saturating_add(count);
        Ok(count)
    }
}
