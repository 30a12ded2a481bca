ghost use Rattle.std.specs.Prelude.{◌≡◌, [], ◌∷◌, map, IfOk, IfErr, OnOk};
ghost use Rattle.ck_io.specs.Faults.{NeverFall};
ghost use Rattle.ck_lookup.specs.Limits.{AreWithin};
ghost use Rattle.ck_lookup.specs.Causes.{AreRead};
ghost use Rattle.ck_lookup.specs.Fetching.{IsNext, IsRefusedNext};
ghost use Rattle.ck_lookup.specs.Running.{IsRefusedFetch};

use crate::files::{Files, MOST_BYTES, NotAdded};
use crate::outcome::Outcome;
use ck_io::{Shelf, ShelfError};
use std::alloc::Global;

/// The files of a run, the update file first, or the outcome of the first that can't be had.
pub fn fetch_all<S: Shelf>(
    alloc: Global,
    shelf: &mut S,
    updates: &str,
    queries: &[&str],
) -> Result<Files, Outcome>
    ensures read { IfOk result (AreRead (S.held shelf.old) (updates.now ∷ map (λ name. name.now) queries.now)) }
    ensures within { IfOk result AreWithin }
    ensures fetched { OnOk result (S.faults shelf.new ≡ S.faults shelf.old) }
    ensures refused { IfErr result (IsRefusedFetch (S.held shelf.old) (updates.now ∷ map (λ name. name.now) queries.now) (S.faults shelf.old) (S.faults shelf.new)) }
    ensures held { S.held shelf.new ≡ S.held shelf.old }
    ensures lasting { NeverFall (S.faults shelf.old) (S.faults shelf.new) }
{
    let mut files = Files::new(alloc);
    let mut number: u64 = 0;
    fetch_next(alloc, shelf, &mut files, number, updates)?;
    for query in queries {
        number += 1;
        fetch_next(alloc, shelf, &mut files, number, query)?;
    }
    Ok(files)
}

// Adds the file under a name, which is the one with this number.
fn fetch_next<S: Shelf>(
    alloc: Global,
    shelf: &mut S,
    files: &mut Files,
    number: u64,
    name: &str,
) -> Result<(), Outcome>
    ensures ok { OnOk result (IsNext (S.held shelf.old name.now) files.old files.new) }
    ensures fetched { OnOk result (S.faults shelf.new ≡ S.faults shelf.old) }
    ensures refused { IfErr result (IsRefusedNext number name.now (S.held shelf.old name.now) files.old (S.faults shelf.old) (S.faults shelf.new)) }
    ensures held { S.held shelf.new ≡ S.held shelf.old }
    ensures lasting { NeverFall (S.faults shelf.old) (S.faults shelf.new) }
{
    match shelf.fetch(alloc, name, MOST_BYTES) {
        Ok(bytes) => match files.add(bytes) {
            Ok(()) => Ok(()),
            Err(NotAdded::TooLarge) => Err(Outcome::TooLarge { file: number }),
            Err(NotAdded::Memory) => Err(Outcome::NoMemory),
        },
        Err(ShelfError::Failed) => Err(Outcome::ReadFault { file: number }),
        Err(ShelfError::TooLong { .. }) => Err(Outcome::TooLarge { file: number }),
        Err(ShelfError::Memory) => Err(Outcome::NoMemory),
    }
}
