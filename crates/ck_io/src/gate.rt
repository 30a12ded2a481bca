//! What is called before each line of a script.

/// A gate that each thread passes before it runs a line.
pub trait Gate {
    /// Called once before line `line` of file `who` runs, by the thread that runs it. `who` is 0 for the update file
    /// and f for query file f; lines count from 1. It returns.
    fn before(&self, who: u64, line: u64);
}

/// A gate that is always open: it does nothing.
#[derive(Clone, Copy, Debug, Default, PartialEq, Eq)]
pub struct OpenGate;

impl Gate for OpenGate {
    fn before(&self, _who: u64, _line: u64) {}
}
