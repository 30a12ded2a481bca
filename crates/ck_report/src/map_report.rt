ghost use Rattle.ck_report.specs.declared.map_report.ReportError.TheVariants.{Memory};
ghost use Rattle.std.specs.Prelude.{◌≡◌};

use crate::asked::Asked;
use ck_history::Reply;
use std::alloc::{AllocError, AllocFailed};

/// The parts of a map report.
#[derive(Debug, Drop)]
pub struct MapReport<K> {
    /// The replies to the updates, in order.
    pub replies: Vec<Reply>,
    /// The answers of each query file that has any, beside the file's number, by ascending number from 1 to 64.
    pub answers: Vec<(u64, Vec<Asked<K>>)>,
    /// The pairs at the end, by ascending key.
    pub pairs: Vec<(K, u64)>,
}

/// Why a report wasn't read.
#[derive(Clone, Copy, PartialEq, Eq, Debug)]
pub enum ReportError {
    /// The text is no report: `line` is the number, from 1, of the first line that no report with the same earlier lines
    /// has, or of the line after the last where the text stops early.
    Fault { line: u64 },
    /// There was no memory.
    Memory,
}

impl From<AllocError> for ReportError {
    ghost from_gives = { λ _ error. error ≡ Memory };

    fn from(_: AllocError) -> ReportError {
        ReportError::Memory
    }
}

impl<T: Drop> From<AllocFailed<T>> for ReportError {
    ghost from_gives = { λ _ error. error ≡ Memory };

    fn from(_: AllocFailed<T>) -> ReportError {
        ReportError::Memory
    }
}
