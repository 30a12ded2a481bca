//! Real files as a shelf.
ghost use Rattle.std.specs.Prelude.{◌≡◌, ◌≤◌, None, IfOk, IfErr, IfSome, vec_len};
ghost use Rattle.ck_io.specs.Shelf.{HasCause};

use crate::{Shelf, ShelfError};
use std::alloc::{AllocError, Global};
use std::fs;
use std::fs::OpenFile;
use std::io::{ErrorKind, Read};
use std::marker::Model;
use std::rt::Files;

/// The most bytes that one read asks for.
const PIECE: usize = 65536;

/// Real files. It doesn't tell what they hold, and counts the faults of all names together. Contracts see that count.
pub struct FileShelf<'a, R: Files> {
    rt: &'a R,
    faults: u64,
}

impl<R: Files> Drop for FileShelf<'_, R> {
    fn drop(self) {
        let FileShelf { rt: _, faults: _ } = self;
    }
}

impl<'a, R: Files> Model for FileShelf<'a, R> {
    ghost use Rattle.std.specs.Prelude.{ℕ};

    ghost Value = { ℕ };

    ghost view = { λ s. s.faults };
}

impl<'a, R: Files> FileShelf<'a, R> {
    /// The files that the runtime reaches, none of which has failed yet.
    pub fn new(rt: &'a R) -> Self
        ensures { result ≡ 0 }
    {
        FileShelf { rt, faults: 0 }
    }
}

/// This many bytes that are 0.
fn zeros(alloc: Global, count: usize) -> Result<Vec<u8>, AllocError>
    ensures { IfOk result (λ bytes. vec_len bytes ≡ count) }
{
    vec![in alloc; 0u8; count]
}

/// Reads all that a reader has left, if that is at most `limit` bytes: it stops at one byte more. `size` is how many
/// bytes to make room for at once.
pub(crate) fn read_all<F: Read>(
    file: &mut F,
    alloc: Global,
    size: u64,
    limit: u64,
) -> Result<Vec<u8>, ShelfError>
    ensures within { IfOk result (λ bytes. vec_len bytes ≤ limit) }
    ensures all { IfOk result (λ bytes. IfSome (F.remaining file.old) (λ told. bytes.items ≡ told)) }
    // a read that fails is a fault that rose
    ensures more { IfErr result (HasCause (F.remaining file.old) limit 0 1) }
{
    let most = limit.saturating_add(1);
    let mut bytes = Vec::with_capacity(alloc, size.min(limit) as usize)?;
    // Made once, and not on the stack: the least stack that a program may be given has no room for a piece.
    let mut room = zeros(alloc, PIECE)?;
    let piece = room.as_mut_slice();
    'reads: for _ in 0..u64::MAX {
        let left = most - bytes.len() as u64;
        let wanted = left.min(PIECE as u64) as usize;
        match file.read(&mut piece[..wanted]) {
            Ok(0) => return Ok(bytes),
            Ok(count) if count as u64 > limit - bytes.len() as u64 => {
                return Err(ShelfError::TooLong { bytes: most });
            }
            Ok(count) => bytes.extend_from_slice(&piece[..count])?,
            Err(why) if why.kind() == ErrorKind::Interrupted => {}
            Err(_) => return Err(ShelfError::Failed),
        }
    }
    Err(ShelfError::Failed)
}

/// Reads a file.
fn read_file<R: Files>(rt: &R, alloc: Global, name: &str, limit: u64) -> Result<Vec<u8>, ShelfError>
    ensures within { IfOk result (λ bytes. vec_len bytes ≤ limit) }
    ensures more { IfErr result (HasCause None limit 0 1) }
{
    let Ok(mut file) = fs::open(rt, name) else {
        return Err(ShelfError::Failed);
    };
    let size = file.metadata().map_or(0, |about| about.len());
    read_all(&mut file, alloc, size, limit)
}

impl<R: Files> Shelf for FileShelf<'_, R> {
    ghost held = { λ _ _. None };

    ghost faults = { λ s _. s };

    fn fetch(&mut self, alloc: Global, name: &str, limit: u64) -> Result<Vec<u8>, ShelfError> {
        match read_file(self.rt, alloc, name, limit) {
            Err(ShelfError::Failed) => {
                self.faults = self.faults.saturating_add(1);
                Err(ShelfError::Failed)
            }
            answer => answer,
        }
    }
}
