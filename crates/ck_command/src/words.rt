ghost use Rattle.std.specs.Prelude.{◌≡◌, ◌==◌, not, length, ◌≤◌, ◌<◌, ◌^◌, [], drop, map, unwrap_or, option_map, option_and_then, IfOk, None, Some, string_bytes};
ghost use Rattle.std.specs.List.{list_all};
ghost use Rattle.clap.specs.Simple.{app_of};
ghost use Rattle.ck_command.specs.Parser.{table_app};
ghost use Rattle.ck_command.specs.Words.{Judge, are_file_names, command_of, command_said, judgment_after, judgment_with, make_said, number_within, setting};
ghost use Rattle.ck_command.specs.Asked.{asked_by, command_value, kind_value, judgment_value, said_by, run_value};

use ck_text::read_decimal;
use clap::error::ErrorKind;
use clap::{Arg, ArgAction};
use std::alloc::{AllocError, Global};

/// How many lines each generated file may have, beside the line `wait`: with it a file has as many as one may have.
const MOST_LINES: u64 = 999_999;

/// What the words of the command line ask for.
#[derive(Debug, Drop)]
pub enum Command<'a> {
    /// A run of files.
    Run(RunCommand<'a>),
    /// The summary of the run that a seed generates, with so many updates and queries, at most 999,999.
    Make { seed: u64, lines: u64 },
    /// A judgment on a report of a table.
    Judge(JudgeCommand<'a>),
}

/// What runs of files are over.
#[derive(Clone, Copy, Debug, PartialEq, Eq)]
pub enum Kind {
    /// A table of keys and values.
    Table,
    /// A list of members.
    List,
}

/// What a run of files is asked.
#[derive(Debug, Drop)]
pub struct RunCommand<'a> {
    /// What it is over.
    pub kind: Kind,
    /// The seed of a table's hashes. A list has none.
    pub seed: u64,
    /// How many threads read, 1 to 16.
    pub workers: u64,
    /// The name of the update file.
    pub updates: &'a str,
    /// The names of the query files, 1 to 64.
    pub queries: Vec<&'a str>,
}

/// What a judgment is asked.
#[derive(Debug, Drop)]
pub struct JudgeCommand<'a> {
    /// The name of the update file.
    pub updates: &'a str,
    /// The names of the query files, 1 to 64, and then that of the report.
    pub others: Vec<&'a str>,
}

// What is asked of the options and the files after a kind.
#[derive(Clone, Copy)]
enum Form {
    // A run of this kind: options, and from 2 to 65 files.
    Run(Kind),
    // A judgment: no option, and from 3 to 66 files.
    Judgment,
}

/// The command that the words after the program's name ask for, or `None` exactly where they are not of the form. `Err`
/// is want of memory.
pub fn read_words<'a>(alloc: Global, words: &'a [String]) -> Result<Option<Command<'a>>, AllocError>
    ensures { IfOk result (λ answer. command_of (map string_bytes words.now) ≡ option_map command_value answer) }
{
    match words {
        [kind, ..] if kind.as_str() == "table" => {
            read_files(alloc, words, Form::Run(Kind::Table))
        }
        [kind, ..] if kind.as_str() == "list" => read_files(alloc, words, Form::Run(Kind::List)),
        [kind, numbers @ ..] if kind.as_str() == "make" => Ok(read_make(numbers)),
        [kind, judged @ ..] if kind.as_str() == "judge" => read_judgment(alloc, judged),
        _ => Ok(None),
    }
}

// The judgment that the words after `judge` ask for. The word `names` will be a kind too.
fn read_judgment<'a>(alloc: Global, words: &'a [String]) -> Result<Option<Command<'a>>, AllocError>
    ensures { IfOk result (λ answer. option_map Judge (judgment_after (map string_bytes words.now)) ≡ option_map command_value answer) }
{
    match words {
        [kind, ..] if kind.as_str() == "table" => read_files(alloc, words, Form::Judgment),
        _ => Ok(None),
    }
}

// The summary that the words after `make` ask for: they are two numbers.
fn read_make<'a>(words: &[String]) -> Option<Command<'a>>
    ensures { make_said (map string_bytes words.now) ≡ option_map command_value result }
{
    match words {
        [seed, lines] => {
            let seed = number_within(0, u64::MAX, seed.as_str());
            let lines = number_within(0, MOST_LINES, lines.as_str());
            match (seed, lines) {
                (Some(seed), Some(lines)) => Some(Command::Make { seed, lines }),
                _ => None,
            }
        }
        _ => None,
    }
}

// What was said asks for, where it is of this form.
fn said_by<'a>(
    alloc: Global,
    form: Form,
    seed: Option<&str>,
    workers: Option<&str>,
    files: &[&'a str],
) -> Result<Option<Command<'a>>, AllocError>
    ensures { IfOk result (λ answer. said_by form (record {
      seed = option_map (λ word. word.now) seed.entry;
      workers = option_map (λ word. word.now) workers.entry;
      files = map (λ name. name.now) files.now;
    }) ≡ option_map command_value answer) }
{
    match form {
        Form::Run(kind) => match run_said(alloc, kind, seed, workers, files)? {
            Some(command) => Ok(Some(Command::Run(command))),
            None => Ok(None),
        },
        Form::Judgment if seed.is_some() || workers.is_some() => Ok(None),
        Form::Judgment => match judgment_with(alloc, files)? {
            Some(command) => Ok(Some(Command::Judge(command))),
            None => Ok(None),
        },
    }
}

// The run that was said: its numbers and names are within their limits.
fn run_said<'a>(
    alloc: Global,
    kind: Kind,
    seed: Option<&str>,
    workers: Option<&str>,
    files: &[&'a str],
) -> Result<Option<RunCommand<'a>>, AllocError>
    ensures { IfOk result (λ answer. command_said (kind_value kind) (record {
      seed = option_map (λ word. word.now) seed.entry;
      workers = option_map (λ word. word.now) workers.entry;
      files = map (λ name. name.now) files.now;
    }) ≡ option_map run_value answer) }
{
    if !are_file_names(2, 65, files) {
        return Ok(None);
    }
    let seed = setting(0, u64::MAX, 0, seed);
    let workers = setting(1, 16, 4, workers);
    match (seed, workers, files) {
        (Some(seed), Some(workers), [updates, queries @ ..]) => Ok(Some(RunCommand {
            kind,
            seed,
            workers,
            updates: *updates,
            queries: Vec::from_slice(alloc, queries)?,
        })),
        _ => Ok(None),
    }
}

// The judgment of these files.
fn judgment_with<'a>(
    alloc: Global,
    files: &[&'a str],
) -> Result<Option<JudgeCommand<'a>>, AllocError>
    ensures { IfOk result (λ answer. judgment_with (map (λ name. name.now) files.now) ≡ option_map judgment_value answer) }
{
    match files {
        [updates, others @ ..] if are_file_names(3, 66, files) => Ok(Some(JudgeCommand {
            updates: *updates,
            others: Vec::from_slice(alloc, others)?,
        })),
        _ => Ok(None),
    }
}

// Whether there are so many files, and no name is empty.
fn are_file_names(least: usize, most: usize, files: &[&str]) -> bool
    ensures { result ≡ are_file_names least most (map (λ name. name.now) files.now) }
{
    files.len() >= least && files.len() <= most && none_is_empty(files)
}

// Whether no name is empty.
fn none_is_empty(names: &[&str]) -> bool
    ensures { result ≡ list_all (λ name. not (length name == 0)) (map (λ name. name.now) names.now) }
{
    for name in names {
        if name.is_empty() {
            return false;
        }
    }
    true
}

// The option's number, where it is within its limits, or what it is where it isn't said.
fn setting(least: u64, most: u64, missing: u64, word: Option<&str>) -> Option<u64>
    ensures { result ≡ setting least most missing (option_map (λ word. word.now) word.entry) }
{
    match word {
        None => Some(missing),
        Some(word) => number_within(least, most, word),
    }
}

// The word's number, where it is within these limits.
fn number_within(least: u64, most: u64, word: &str) -> Option<u64>
    ensures { result ≡ number_within least most word.now }
{
    match read_decimal(word.as_bytes(), most as u128) {
        None => None,
        Some(n) => {
            if n >= least as u128 {
                Some(n as u64)
            } else {
                None
            }
        }
    }
}

// The words, whose first is the kind, read by `clap`.
fn read_files<'a>(
    alloc: Global,
    words: &'a [String],
    form: Form,
) -> Result<Option<Command<'a>>, AllocError>
    ensures { IfOk result (λ answer. asked_by form (drop 1 (map string_bytes words.now)) ≡ option_map command_value answer) }
{
    match table_parser(alloc)?.try_get_matches_from(words) {
        Ok(matches) => said_by(
            alloc,
            form,
            matches.get_str("seed"),
            matches.get_str("workers"),
            matches.get_strs("file").unwrap_or(&[]),
        ),
        Err(error) => match error.kind() {
            ErrorKind::OutOfMemory => Err(AllocError),
            _ => Ok(None),
        },
    }
}

// The command of a kind, for `clap`. The word for the kind stands where `clap` looks for the program's name.
fn table_parser<'a>(alloc: Global) -> Result<clap::Command<'a>, AllocError>
    ensures { IfOk result (λ c. app_of c ≡ table_app) }
{
    let seed = Arg::new(alloc, "seed").long("seed");
    let workers = Arg::new(alloc, "workers").long("workers");
    let files = Arg::new(alloc, "file").action(ArgAction::Append);
    Ok(
        clap::Command::new(alloc, "table")
            .arg(seed)?
            .arg(workers)?
            .arg(files)?
            .disable_help_flag(true),
    )
}

#[cfg(test)]
mod tests;
