//! Standard output as a sink.
ghost use Rattle.std.specs.Prelude.{◌≡◌, ◌≤◌, ◌<◌, length, None, IfSome};

use crate::{Sink, SinkFailed};
use std::io::ErrorKind;
use std::marker::Model;

/// How often one put tries again after a signal interrupted it.
const TRIES: u32 = 64;

/// The standard output, unbuffered: what a put answers as taken was written. It doesn't tell what was taken. Contracts
/// see its count of faults.
pub struct StdSink<'a, R: Print> {
    rt: &'a R,
    faults: u64,
}

impl<R: Print> Drop for StdSink<'_, R> {
    fn drop(self) {
        let StdSink { rt: _, faults: _ } = self;
    }
}

impl<'a, R: Print> Model for StdSink<'a, R> {
    ghost use Rattle.std.specs.Prelude.{ℕ};

    ghost Value = { ℕ };

    ghost view = { λ s. s.faults };
}

impl<'a, R: Print> StdSink<'a, R> {
    /// The runtime's output, which has not failed yet.
    pub fn new(rt: &'a R) -> Self
        ensures { result ≡ 0 }
    {
        StdSink { rt, faults: 0 }
    }
}

/// Writes some of the bytes, and says how many, or `None` where none could be written.
fn write_some<R: Print>(rt: &R, bytes: &[u8]) -> Option<usize>
    ensures within { IfSome result (λ count. count ≤ length bytes.now) }
    ensures some { IfSome result (λ count. 0 < length bytes.now → 0 < count) }
{
    if bytes.is_empty() {
        return Some(0);
    }
    for _ in 0..TRIES {
        match rt.write_some(bytes) {
            Ok(0) => return None,
            Ok(count) => return Some(count),
            Err(why) if why.kind() == ErrorKind::Interrupted => {}
            Err(_) => return None,
        }
    }
    None
}

impl<R: Print> Sink for StdSink<'_, R> {
    ghost taken = { λ _. None };

    ghost faults = { λ s. s };

    fn put(&mut self, piece: &[u8]) -> Result<u64, SinkFailed> {
        let Some(count) = write_some(self.rt, piece) else {
            self.faults = self.faults.saturating_add(1);
            return Err(SinkFailed);
        };
        Ok(count as u64)
    }
}
