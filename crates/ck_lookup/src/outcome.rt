ghost use Rattle.std.specs.Prelude.{◌≡◌, IfOk, string_bytes};
ghost use Rattle.ck_lookup.specs.Outcomes.{message_of, why_text};

use ck_script::Why;
use std::alloc::{AllocError, AllocFailed, Global};

/// How a run ended. File 0 is the update file, file f the query file with the number f.
#[derive(Clone, Copy, PartialEq, Eq, Debug)]
pub enum Outcome {
    /// The sink took the whole report or summary, or the line of a report that is legal.
    Done,
    /// The words name no run.
    Usage,
    /// A file couldn't be read.
    ReadFault { file: u64 },
    /// The first line, by file and then by line, that is outside the grammar; where there is none, the line that the checks
    /// refuse: the first that asks for more than there is, else the first query too many of a list, else the first `hold`
    /// that would wait for ever.
    BadScript { file: u64, line: u64, why: Why },
    /// A file past a limit.
    TooLarge { file: u64 },
    /// The sink failed.
    WriteFault,
    /// The file that is to be a report is none: this is its first faulty line.
    BadReport { line: u64 },
    /// The report isn't one of the scripts. The sink took the whole line that tells where it differs.
    Illegal,
    /// There was no memory.
    NoMemory,
}

impl Outcome {
    ghost use Rattle.std.specs.Prelude.{◌≡◌};
    ghost use Rattle.ck_lookup.specs.Outcomes.{status_of};

    /// The exit status of the process.
    pub fn status(&self) -> u8
        ensures { result ≡ status_of self.now }
    {
        match self {
            Outcome::Done => 0,
            Outcome::Usage => 2,
            Outcome::ReadFault { .. } => 3,
            Outcome::BadScript { .. } => 4,
            Outcome::TooLarge { .. } => 5,
            Outcome::WriteFault => 7,
            Outcome::Illegal => 8,
            Outcome::NoMemory => 9,
            Outcome::BadReport { .. } => 10,
        }
    }
}

/// The line that tells a user of the outcome, without its line feed. It is empty after a whole report.
pub fn line_of(alloc: Global, outcome: &Outcome) -> Result<String, AllocError>
    ensures { IfOk result (λ line. string_bytes line ≡ message_of outcome.now) }
{
    match *outcome {
        Outcome::Done => Ok(String::new(alloc)),
        Outcome::Usage => String::from_str(
            alloc,
            "usage: lookup table|names|list [--seed N] [--workers N] [--fold] UPDATES QUERY..",
        ),
        Outcome::ReadFault { file } => format!(in alloc; "lookup: cannot read file {file}"),
        Outcome::BadScript { file, line, why } => {
            let why = word_for(why);
            format!(in alloc; "lookup: file {file} line {line}: {why}")
        }
        Outcome::TooLarge { file } => format!(in alloc; "lookup: file {file} is too large"),
        Outcome::WriteFault => String::from_str(alloc, "lookup: cannot write"),
        Outcome::BadReport { line } => format!(in alloc; "lookup: report line {line}"),
        Outcome::Illegal => String::from_str(alloc, "lookup: not legal"),
        Outcome::NoMemory => String::from_str(alloc, "lookup: out of memory"),
    }
}

// The word for what is wrong with a line.
fn word_for(why: Why) -> &'static str
    ensures { result.now ≡ why_text why }
{
    match why {
        Why::Verb => "verb",
        Why::Shape => "shape",
        Why::Number => "number",
        Why::Key => "key",
        Why::Beyond => "beyond",
        Why::Many => "many",
        Why::Circle => "circle",
    }
}

impl From<AllocError> for Outcome {
    ghost use Rattle.std.specs.Prelude.{◌≡◌};
    ghost use Rattle.ck_lookup.specs.declared.outcome.Outcome.TheVariants.{NoMemory};

    ghost from_gives = { λ _ outcome. outcome ≡ NoMemory };

    fn from(_: AllocError) -> Outcome {
        Outcome::NoMemory
    }
}

impl<T: Drop> From<AllocFailed<T>> for Outcome {
    ghost use Rattle.std.specs.Prelude.{◌≡◌};
    ghost use Rattle.ck_lookup.specs.declared.outcome.Outcome.TheVariants.{NoMemory};

    ghost from_gives = { λ _ outcome. outcome ≡ NoMemory };

    fn from(_: AllocFailed<T>) -> Outcome {
        Outcome::NoMemory
    }
}
