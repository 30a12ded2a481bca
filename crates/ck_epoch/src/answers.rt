//! What the calls answer.

/// What a poll answers. Of each, `n` items were dispatched: the handler's answers for them wait.
#[derive(Clone, Copy, PartialEq, Eq, Debug)]
pub enum Poll {
    /// No record was active, and nothing is pending any more.
    Clear { n: u64 },
    /// Some record was active, `rec` the first of them, and each such had the global epoch, which has moved on.
    Moved { n: u64, rec: u64 },
    /// The record `rec` was active with `epoch`, which isn't the global epoch that this call loaded.
    Blocked { n: u64, rec: u64, epoch: u64 },
}

/// What a domain leaves: the words of its client.
#[derive(Drop)]
pub struct Closed {
    pub words: Vec<u64>,
}

/// What a poll finds as it goes through the records.
#[derive(Clone, Copy, Drop)]
pub(crate) enum Scan {
    /// None is active.
    Clear,
    /// Each active record has the epoch that the poll loaded. The first is this.
    Current { rec: u64 },
    /// This record is active with this other epoch.
    Behind { rec: u64, epoch: u64 },
}
