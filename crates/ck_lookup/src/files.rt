ghost use Rattle.std.specs.Prelude.{◌≡◌, ◌+◌, ◌≤◌, ◌<◌, ◌↔◌, [], ◌∷◌, ◌++◌, IsTrue, length, map, MatchResult};
ghost use Rattle.ck_lookup.specs.Limits.{AreWithin};
ghost use Rattle.ck_lookup.specs.Fetching.{IsNotAdded};

use ck_text::count_lines;
use std::alloc::{AllocFailed, Global};
use std::marker::Model;

/// How many bytes a file may have.
pub const MOST_BYTES: u64 = 33554432;

/// How many lines a file may have.
const MOST_LINES: u64 = 1000000;

/// How many bytes all files of a run may have.
const ALL_BYTES: u64 = 268435456;

/// How many lines all files of a run may have.
const ALL_LINES: u64 = 4000000;

/// The files of a run that were fetched so far, all of them within the limits. Contracts see the list of their bytes.
#[derive(Drop)]
pub struct Files {
    all: Vec<Vec<u8>>,
    bytes: u64,
    lines: u64,
}

impl Model for Files {
    ghost use Rattle.std.specs.Prelude.{List, ℕ, map};
    ghost use Rattle.ck_lookup.specs.Fetching.{AreCounted};

    ghost Value = { List (List ℕ) };

    ghost view = { λ f. map (λ file. file.items) f.all.items };

    ghost invariant = { λ f. AreCounted (map (λ file. file.items) f.all.items) f.bytes f.lines };
}

/// Why a file wasn't added.
#[derive(Clone, Copy, PartialEq, Eq, Debug)]
pub enum NotAdded {
    /// With it the files would be past a limit.
    TooLarge,
    /// There was no memory.
    Memory,
}

impl<T: Drop> From<AllocFailed<T>> for NotAdded {
    ghost use Rattle.std.specs.Prelude.{◌≡◌};
    ghost use Rattle.ck_lookup.specs.declared.files.NotAdded.TheVariants.{Memory};

    ghost from_gives = { λ _ error. error ≡ Memory };

    fn from(_: AllocFailed<T>) -> NotAdded {
        NotAdded::Memory
    }
}

impl Files {
    /// No files.
    pub fn new(alloc: Global) -> Files
        ensures { result ≡ [] }
    {
        Files {
            all: Vec::new(alloc),
            bytes: 0,
            lines: 0,
        }
    }

    /// The bytes of each file, in order.
    pub fn all(&self) -> &[Vec<u8>]
        ensures all { map (λ file. file.items) result.now ≡ self.now }
        ensures within { AreWithin self.now }
    {
        &self.all
    }

    /// Adds the next file, unless the files would be past a limit. An `Err` changes nothing.
    pub fn add(&mut self, file: Vec<u8>) -> Result<(), NotAdded>
        ensures { MatchResult result
            (λ _. (self.new ≡ self.old ++ file.items ∷ []) × AreWithin self.new)
            (IsNotAdded self.old file.items self.new) }
    {
        let bytes = file.len() as u64;
        let lines = count_lines(&file);
        if !is_within(bytes, lines, self.bytes, self.lines) {
            return Err(NotAdded::TooLarge);
        }
        self.all.push(file)?;
        self.bytes += bytes;
        self.lines += lines;
        Ok(())
    }
}

// Whether a file of so many bytes and lines may come after files of so many.
fn is_within(bytes: u64, lines: u64, bytes_before: u64, lines_before: u64) -> bool
    requires bytes { bytes_before ≤ 268435456 }
    requires lines { lines_before ≤ 4000000 }
    ensures { IsTrue result ↔ ((bytes ≤ 33554432) × (lines ≤ 1000000) × (bytes_before + bytes ≤ 268435456) × (lines_before + lines ≤ 4000000)) }
{
    bytes <= MOST_BYTES
        && lines <= MOST_LINES
        && bytes_before + bytes <= ALL_BYTES
        && lines_before + lines <= ALL_LINES
}
