ghost use Rattle.std.specs.Prelude.{◌≡◌, ◌≤◌, ◌⊎◌, ◌++◌, ◌∷◌, [], ℕ, List, length, map, Some, None, string_bytes};
ghost use Rattle.ck_io.specs.Faults.{NeverFall, Rose};
ghost use Rattle.ck_io.specs.Sink.{appended};
ghost use Rattle.ck_lookup.specs.declared.outcome.Outcome.TheVariants.{Done, Usage, NoMemory};
ghost use Rattle.ck_command.specs.Words.{RunCommand, JudgeCommand, Run, Make, Judge, names, judged_names, command_of};
ghost use Rattle.ck_command.specs.Asked.{kind_value, run_value};
ghost use Rattle.ck_lookup.specs.RunKinds.{kind_of};
ghost use Rattle.ck_lookup.specs.Headline.{IsReportOf};
ghost use Rattle.ck_lookup.specs.Causes.{Tells, AreAccepted, outside, MayEndWith, IsClear, IsDoneOrNoMemory};
ghost use Rattle.ck_lookup.specs.Making.{made_text, PutsText};
ghost use Rattle.ck_lookup.specs.Judging.{IsLegalOf, EndsJudged, IsClearJudged, IsIllegalOrNoMemory};

use crate::judging::run_judge;
use crate::list::run_list;
use crate::making::run_make;
use crate::outcome::Outcome;
use crate::table::run_table;
use ck_command::{Command, Kind, read_words};
use ck_io::{Gate, Shelf, Sink};
use std::alloc::Global;
use std::sync::Wait;
use std::thread::Threads;

/// Does all that `lookup` does. The words are those after the program's name.
///
/// - `table` .., `list` ..: fetches the files that the words name, checks them, makes the updates in one task and answers the
///   queries in others, side by side, and then puts the report to the sink.
/// - `make SEED LINES`: generates files, runs them in the same way, and puts the summary of that run.
/// - `judge table` ..: fetches scripts and a report, and puts the line that tells whether the report could have come from
///   them, and where it differs first if not.
pub fn run<R: Threads + Wait + Sync, S: Shelf, K: Sink, G: Gate + Sync>(
    rt: &R,
    alloc: Global,
    words: &[String],
    shelf: &mut S,
    sink: &mut K,
    gate: &G,
) -> Outcome
    // `Usage` exactly where the words are not of the form, unless memory is wanting. Nothing is put for such words.
    ensures usage { result ≡ Usage → command_of (map string_bytes words.now) ≡ None }
    ensures unasked { command_of (map string_bytes words.now) ≡ None
        → ((result ≡ Usage) ⊎ (result ≡ NoMemory)) × (K.taken sink.new ≡ K.taken sink.old) }

    // The headline. Where the run is done, and the shelf tells the bytes of the files, nothing of these bytes is refused,
    // and what the sink took in this run, where it tells that, is a report of them.
    ensures report { (c : RunCommand) (update_file : List ℕ) (query_files : List (List ℕ))
        → command_of (map string_bytes words.now) ≡ Some (Run c)
        → Tells (S.held shelf.old) (names c) update_file query_files
        → result ≡ Done
        → AreAccepted (kind_of c.kind).kind update_file query_files
        × ((text : List ℕ) × IsReportOf (kind_of c.kind).kind update_file query_files text × (K.taken sink.new ≡ appended (K.taken sink.old) text)) }

    // Every outcome but `NoMemory`, which may come at any time, has its cause, and none of the refusals that come before
    // it. Where the shelf tells no bytes, there are bytes for each file of which all this holds.
    ensures ends { (c : RunCommand) → command_of (map string_bytes words.now) ≡ Some (Run c)
        → MayEndWith (kind_of c.kind).kind (outside (S.held shelf.old) (S.faults shelf.old) (S.faults shelf.new) (K.taken sink.old) (K.taken sink.new) (K.faults sink.old) (K.faults sink.new)) (names c) result }

    // Lawful files, and no fault of shelf or sink, give the whole report, unless memory is wanting.
    ensures complete { (c : RunCommand) (update_file : List ℕ) (query_files : List (List ℕ))
        → command_of (map string_bytes words.now) ≡ Some (Run c)
        → IsClear (kind_of c.kind).kind (outside (S.held shelf.old) (S.faults shelf.old) (S.faults shelf.new) (K.taken sink.old) (K.taken sink.new) (K.faults sink.old) (K.faults sink.new)) (names c) update_file query_files
        → IsDoneOrNoMemory result }

    // The summary of a seed: the sink took all of its text, or a front of it where it failed, or nothing where memory was
    // wanting.
    ensures made { (seed lines : ℕ) → command_of (map string_bytes words.now) ≡ Some (Make seed lines)
        → PutsText (made_text seed lines) (K.taken sink.old) (K.taken sink.new) (K.faults sink.old) (K.faults sink.new) result × (S.faults shelf.new ≡ S.faults shelf.old) }

    // .. and all of it, unless the sink failed or memory is wanting.
    ensures complete_made { (seed lines : ℕ) → command_of (map string_bytes words.now) ≡ Some (Make seed lines)
        → (Rose (K.faults sink.old) (K.faults sink.new) → ⊥) → IsDoneOrNoMemory result }

    // A judgment is done only where the report could have come from the scripts.
    ensures legal { (c : JudgeCommand) (update_file : List ℕ) (query_files : List (List ℕ)) (report_file : List ℕ)
        → command_of (map string_bytes words.now) ≡ Some (Judge c)
        → Tells (S.held shelf.old) (judged_names c) update_file (query_files ++ report_file ∷ [])
        → result ≡ Done
        → IsLegalOf update_file query_files report_file }

    // Every outcome of a judgment but `NoMemory`, which may come at any time, has its cause, and none of the refusals that
    // come before it.
    ensures judged { (c : JudgeCommand) → command_of (map string_bytes words.now) ≡ Some (Judge c)
        → EndsJudged (outside (S.held shelf.old) (S.faults shelf.old) (S.faults shelf.new) (K.taken sink.old) (K.taken sink.new) (K.faults sink.old) (K.faults sink.new)) (judged_names c) result }

    // Lawful scripts, a report, and no fault of shelf or sink give the verdict, unless memory is wanting: the run is done
    // where the report could have come from the scripts, and ends as `Illegal` where it couldn't.
    ensures complete_judged { (c : JudgeCommand) (update_file : List ℕ) (query_files : List (List ℕ)) (report_file : List ℕ)
        → command_of (map string_bytes words.now) ≡ Some (Judge c)
        → IsClearJudged (outside (S.held shelf.old) (S.faults shelf.old) (S.faults shelf.new) (K.taken sink.old) (K.taken sink.new) (K.faults sink.old) (K.faults sink.new)) (judged_names c) update_file query_files report_file
        → (IsLegalOf update_file query_files report_file → IsDoneOrNoMemory result)
        × ((IsLegalOf update_file query_files report_file → ⊥) → IsIllegalOrNoMemory result) }

    // The shelf holds what it held, and no count of faults falls.
    ensures held { S.held shelf.new ≡ S.held shelf.old }
    ensures shelf_lasting { NeverFall (S.faults shelf.old) (S.faults shelf.new) }
    ensures sink_lasting { K.faults sink.old ≤ K.faults sink.new }
{
    match read_words(alloc, words) {
        Ok(Some(Command::Run(command))) => run_command(rt, alloc, &command, shelf, sink, gate),
        Ok(Some(Command::Make { seed, lines })) => run_make(rt, alloc, seed, lines, sink),
        Ok(Some(Command::Judge(command))) => {
            run_judge(alloc, command.updates, &command.others, shelf, sink)
        }
        Ok(None) => Outcome::Usage,
        Err(_) => Outcome::NoMemory,
    }
}

// Runs the files of the command, over what its kind says.
fn run_command<R: Threads + Wait + Sync, S: Shelf, K: Sink, G: Gate + Sync>(
    rt: &R,
    alloc: Global,
    command: &ck_command::RunCommand,
    shelf: &mut S,
    sink: &mut K,
    gate: &G,
) -> Outcome
    requires queries { (1 ≤ length command.now.queries.items) × (length command.now.queries.items ≤ 64) }
    requires workers { (1 ≤ command.now.workers) × (command.now.workers ≤ 16) }
    ensures ends { MayEndWith (kind_of (kind_value command.now.kind)).kind (outside (S.held shelf.old) (S.faults shelf.old) (S.faults shelf.new) (K.taken sink.old) (K.taken sink.new) (K.faults sink.old) (K.faults sink.new)) (names (run_value command.now)) result }
    ensures held { S.held shelf.new ≡ S.held shelf.old }
    ensures shelf_lasting { NeverFall (S.faults shelf.old) (S.faults shelf.new) }
    ensures sink_lasting { K.faults sink.old ≤ K.faults sink.new }
{
    let (updates, queries, workers) = (command.updates, &command.queries, command.workers);
    match command.kind {
        Kind::Table => {
            let seed = command.seed;
            run_table(
                rt, alloc, updates, queries, seed, workers, shelf, sink, gate,
            )
        }
        Kind::List => run_list(rt, alloc, updates, queries, workers, shelf, sink, gate),
    }
}
