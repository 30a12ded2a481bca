//! What the calls answer.

use crate::ends::Visitor;

/// No record was free: the call tried each once, and found each held. The visitor is handed back.
#[derive(Drop)]
pub struct NoRecord {
    pub visitor: Visitor,
    /// How many records were tried, which is all of them.
    pub tried: u64,
}

/// What a scan answers. Of each, `n` items were dispatched: they wait for `next_item`.
#[derive(Clone, Copy, PartialEq, Eq, Debug)]
pub enum Scan {
    /// No record was active, and nothing of this member is pending any more.
    Clear { n: u64 },
    /// The record `rec` was active with `epoch`, which isn't the global epoch that this call loaded.
    Blocked { n: u64, rec: u64, epoch: u64 },
    /// Some record was active, `rec` the first of them, and each such had `epoch`, the global epoch that this call loaded. The member may
    /// advance from it.
    Ready { n: u64, rec: u64, epoch: u64 },
}

/// What an advance answers.
#[derive(Clone, Copy, PartialEq, Eq, Debug)]
pub enum Advance {
    /// The global epoch has moved on, and `n` items were dispatched: they wait for `next_item`.
    Moved { n: u64 },
    /// The global epoch was `found`, and not the one of the scan: another member moved it. Nothing was dispatched.
    Raced { found: u64 },
}

/// What a scan finds as it goes through the records.
#[derive(Clone, Copy, Drop)]
pub(crate) enum Finding {
    /// None is active.
    AllInactive,
    /// Each active record has the epoch that the scan loaded. The first is this.
    AllCurrent { rec: u64 },
    /// This record is active with this other epoch.
    OneBehind { rec: u64, epoch: u64 },
}
