//! Where a text goes.
ghost use Rattle.std.specs.Prelude.{◌≡◌, ℕ, ◌≤◌, ◌<◌, List, length, take, Option, IfOk, OnOk, OnErr};
ghost use Rattle.ck_io.specs.Faults.{Rose};
ghost use Rattle.ck_io.specs.Sink.{appended, AppendsPrefix};

use std::error::Error;
use std::fmt;

/// A sink took nothing of a piece.
#[derive(Clone, Copy, Debug, PartialEq, Eq)]
pub struct SinkFailed;

impl fmt::Display for SinkFailed {
    fn fmt<W: fmt::Write>(&self, f: &mut fmt::Formatter<W>) -> fmt::Result {
        write!(f, "cannot write")
    }
}

impl Error for SinkFailed {}

/// Takes a text piece by piece.
pub trait Sink {
    /// The bytes taken so far, or `None` where the sink doesn't tell them.
    ghost taken: { Self → Option (List ℕ) };

    /// How often a put has failed.
    ghost faults: { Self → ℕ };

    /// Appends the first bytes of a piece, and returns how many: at least one, unless the piece is empty.
    fn put(&mut self, piece: &[u8]) -> Result<u64, SinkFailed>
        ensures appends { IfOk result (λ n. taken self.new ≡ appended (taken self.old) (take n piece.now)) }
        ensures within { IfOk result (λ n. n ≤ length piece.now) }
        ensures some { IfOk result (λ n. 0 < length piece.now → 0 < n) }

        // It fails only where the count rose in this call, and then nothing was appended.
        ensures cause { OnErr result (Rose (faults self.old) (faults self.new)) }
        ensures nothing { OnErr result (taken self.new ≡ taken self.old) }

        ensures lasting { faults self.old ≤ faults self.new };
}

/// The most bytes that `put_all` offers to one put.
const PIECE: usize = 65536;

/// Puts all of the bytes. It offers to each put all that is left, or the next 65,536 bytes where more is left.
pub fn put_all<K: Sink>(sink: &mut K, bytes: &[u8]) -> Result<(), SinkFailed>
    ensures all { OnOk result (K.taken sink.new ≡ appended (K.taken sink.old) bytes.now) }
    ensures prefix { OnErr result (AppendsPrefix (K.taken sink.old) (K.taken sink.new) bytes.now) }
    ensures cause { OnErr result (Rose (K.faults sink.old) (K.faults sink.new)) }
    ensures lasting { K.faults sink.old ≤ K.faults sink.new }
{
    let mut done = 0;
    while done < bytes.len() {
        let end = done + (bytes.len() - done).min(PIECE);
        done += sink.put(&bytes[done..end])? as usize;
    }
    Ok(())
}
