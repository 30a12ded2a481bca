ghost use Rattle.ck_script.specs.declared.fault.ScriptError.TheVariants.{Memory};
ghost use Rattle.std.specs.Prelude.{◌≡◌};

use std::alloc::{AllocError, AllocFailed};

/// What is wrong with a line of a script.
#[derive(Clone, Copy, PartialEq, Eq, Debug)]
pub enum Why {
    /// Its first word is no verb of this file.
    Verb,
    /// It hasn't as many words as its verb wants.
    Shape,
    /// The first wrong word stands for a number, and is none.
    Number,
    /// The first wrong word stands for a key, and is a reserved number.
    Key,
    /// A `wait` for more updates than there are, or a `hold` for a file or for queries that there aren't.
    Beyond,
    /// One `all` line more than a run may have.
    Many,
    /// A `hold` and a `wait` that would wait for each other.
    Circle,
}

/// The first line outside the grammar, by its number from 1, and what is wrong with it.
#[derive(Clone, Copy, PartialEq, Eq, Debug)]
pub struct ScriptFault {
    pub line: u64,
    pub why: Why,
}

/// Why a script wasn't read.
#[derive(Clone, Copy, PartialEq, Eq, Debug)]
pub enum ScriptError {
    /// A line is outside the grammar.
    Fault(ScriptFault),
    /// There was no memory.
    Memory,
}

impl From<AllocError> for ScriptError {
    ghost from_gives = { λ _ error. error ≡ Memory };

    fn from(_: AllocError) -> ScriptError {
        ScriptError::Memory
    }
}

impl<T: Drop> From<AllocFailed<T>> for ScriptError {
    ghost from_gives = { λ _ error. error ≡ Memory };

    fn from(_: AllocFailed<T>) -> ScriptError {
        ScriptError::Memory
    }
}
