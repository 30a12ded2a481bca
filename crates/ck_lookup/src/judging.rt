//! A judgment on a report.
ghost use Rattle.std.specs.Prelude.{◌≡◌, ◌≤◌, ◌∷◌, List, ℕ, length, map, string_bytes, IfOk, IfErr, OnOk};
ghost use Rattle.ck_io.specs.Faults.{NeverFall};
ghost use Rattle.ck_report.specs.Reports.{parts_of};
ghost use Rattle.ck_lookup.specs.Causes.{outside};
ghost use Rattle.ck_lookup.specs.Judging.{judged_files, verdict_text, ReadsAs, IsJudged, HasVerdict, EndsJudged};
ghost use Rattle.ck_lookup.specs.Running.{IsNotJudged, IsNoReport, HasNoVerdict, PutsVerdict};

use crate::fetch::fetch_all;
use crate::outcome::Outcome;
use crate::scripts::read_scripts;
use crate::table::OverTable;
use ck_history::Key;
use ck_io::{Shelf, Sink, put_all};
use ck_judge::{Verdict, judge};
use ck_report::{MapReport, ReportError, read_map_report};
use std::alloc::{AllocError, Global};

/// How many pairs a table may have.
const CAPACITY: u64 = 262_144;

/// Judges the last of the files under these names, a report, beside the scripts before it, and puts the line that tells the
/// verdict.
pub fn run_judge<S: Shelf, K: Sink>(
    alloc: Global,
    updates: &str,
    others: &[&str],
    shelf: &mut S,
    sink: &mut K,
) -> Outcome
    requires { 1 ≤ length others.now }
    ensures ends { EndsJudged (outside (S.held shelf.old) (S.faults shelf.old) (S.faults shelf.new) (K.taken sink.old) (K.taken sink.new) (K.faults sink.old) (K.faults sink.new)) (updates.now ∷ map (λ name. name.now) others.now) result }
    ensures held { S.held shelf.new ≡ S.held shelf.old }
    ensures shelf_lasting { NeverFall (S.faults shelf.old) (S.faults shelf.new) }
    ensures sink_lasting { K.faults sink.old ≤ K.faults sink.new }
{
    match verdict_of(alloc, updates, others, shelf) {
        Err(refusal) => refusal,
        Ok(verdict) => put_verdict(alloc, &verdict, sink),
    }
}

// The verdict on the last of the files, or the outcome of a run that finds none.
fn verdict_of<S: Shelf>(
    alloc: Global,
    updates: &str,
    others: &[&str],
    shelf: &mut S,
) -> Result<Verdict, Outcome>
    requires { 1 ≤ length others.now }
    ensures verdict { IfOk result (HasVerdict (S.held shelf.old) (updates.now ∷ map (λ name. name.now) others.now)) }
    ensures fetched { OnOk result (S.faults shelf.new ≡ S.faults shelf.old) }
    ensures refused { IfErr result (HasNoVerdict (S.held shelf.old) (updates.now ∷ map (λ name. name.now) others.now) (S.faults shelf.old) (S.faults shelf.new)) }
    ensures held { S.held shelf.new ≡ S.held shelf.old }
    ensures lasting { NeverFall (S.faults shelf.old) (S.faults shelf.new) }
{
    let files = fetch_all(alloc, shelf, updates, others)?;
    judge_files(alloc, files.all())
}

// The verdict on the last of these files.
fn judge_files(alloc: Global, files: &[Vec<u8>]) -> Result<Verdict, Outcome>
    requires { 2 ≤ length files.now }
    ensures judged { (update_file : List ℕ) (query_files : List (List ℕ)) (report_file : List ℕ) → map (λ file. file.items) files.now ≡ judged_files update_file query_files report_file
        → IfOk result (IsJudged update_file query_files report_file) }
    ensures refused { (update_file : List ℕ) (query_files : List (List ℕ)) (report_file : List ℕ) → map (λ file. file.items) files.now ≡ judged_files update_file query_files report_file
        → IfErr result (IsNotJudged update_file query_files report_file) }
{
    match files {
        [update_file, query_files @ .., report_file] => {
            let scripts = read_scripts::<OverTable>(alloc, update_file, query_files)?;
            let report = read_report(alloc, report_file)?;
            match judge(alloc, &scripts.ups, &scripts.asks, &report, CAPACITY) {
                Ok(verdict) => Ok(verdict),
                Err(_) => Err(Outcome::NoMemory),
            }
        }
        _ => unreachable!(),
    }
}

// The parts of a report, or the outcome of a run whose last file is none.
fn read_report(alloc: Global, bytes: &[u8]) -> Result<MapReport<Key>, Outcome>
    ensures reads { IfOk result (λ report. ReadsAs bytes.now (parts_of report)) }
    ensures refused { IfErr result (IsNoReport bytes.now) }
{
    match read_map_report(alloc, bytes) {
        Ok(report) => Ok(report),
        Err(ReportError::Fault { line }) => Err(Outcome::BadReport { line }),
        Err(ReportError::Memory) => Err(Outcome::NoMemory),
    }
}

// Puts the line that tells a verdict.
fn put_verdict<K: Sink>(alloc: Global, verdict: &Verdict, sink: &mut K) -> Outcome
    ensures put { PutsVerdict verdict.now (K.taken sink.old) (K.taken sink.new) (K.faults sink.old) (K.faults sink.new) result }
    ensures lasting { K.faults sink.old ≤ K.faults sink.new }
{
    let line = match line_of_verdict(alloc, verdict) {
        Ok(line) => line,
        Err(_) => return Outcome::NoMemory,
    };
    match put_all(sink, line.as_bytes()) {
        Ok(()) if matches!(verdict, Verdict::Legal { .. }) => Outcome::Done,
        Ok(()) => Outcome::Illegal,
        Err(_) => Outcome::WriteFault,
    }
}

// The line that tells a verdict.
fn line_of_verdict(alloc: Global, verdict: &Verdict) -> Result<String, AllocError>
    ensures { IfOk result (λ line. string_bytes line ≡ verdict_text verdict.now) }
{
    match verdict {
        Verdict::Legal { .. } => String::from_str(alloc, "legal\n"),
        Verdict::Reply { at } => format!(in alloc; "reply {at}\n"),
        Verdict::Place { file, query } => format!(in alloc; "place {file} {query}\n"),
        Verdict::Table { at } => format!(in alloc; "table {at}\n"),
    }
}
