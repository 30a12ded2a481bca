ghost use Rattle.std.specs.Prelude.{◌≡◌};
ghost use Rattle.std.specs.Process.{exit_status};
ghost use Rattle.ck_lookup.specs.Outcomes.{status_of};

use crate::lookup::run;
use crate::outcome::{Outcome, line_of};
use ck_io::{FileShelf, OpenGate, StdSink};
use std::alloc::Global;
use std::env;
use std::io::ErrorKind;
use std::process::ExitCode;
use std::rt::{Env, Runtime};
use std::sync::Wait;
use std::thread::Threads;

/// The whole program: runs the words that it was started with over real files and standard output, and tells on
/// standard error how the run ended, unless it is done. Returns what the process ends with.
pub fn run_program<R: Runtime + Alloc<A = Global> + Threads + Wait + Sync>(rt: &R) -> ExitCode {
    let outcome = match words(rt) {
        Ok(words) => {
            let mut shelf = FileShelf::new(rt);
            let mut sink = StdSink::new(rt);
            run(rt, rt.alloc(), &words, &mut shelf, &mut sink, &OpenGate)
        }
        Err(outcome) => outcome,
    };
    if outcome != Outcome::Done {
        // Where standard error takes no line, the status still tells.
        let _ = match line_of(rt.alloc(), &outcome) {
            Ok(line) => eprintln!(rt; "{line}"),
            Err(_) => eprintln!(rt; "lookup: out of memory"),
        };
    }
    exit_code(&outcome)
}

/// What the process ends with after this outcome.
pub fn exit_code(outcome: &Outcome) -> ExitCode
    ensures { exit_status result ≡ status_of outcome.now }
{
    ExitCode::from(outcome.status())
}

// The words after the program's name. A word that is no text asks for no run.
fn words<R: Env + Alloc<A = Global>>(rt: &R) -> Result<Vec<String>, Outcome> {
    let mut words = match env::args(rt) {
        Ok(args) => args,
        Err(error) if error.kind() == ErrorKind::OutOfMemory => return Err(Outcome::NoMemory),
        Err(_) => return Err(Outcome::Usage),
    };
    let _ = words.next();
    Ok(words.collect(rt.alloc())?)
}
