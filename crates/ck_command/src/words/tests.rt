//! Word lists, and what they ask for.
use super::{Command, JudgeCommand, Kind, RunCommand, read_words};
use std::alloc::{AllocError, Global};

// The words, and what they ask for: the kind where it isn't a table, the seed, the workers and the files of a run.
const RUNS: &[(&[&str], &str)] = &[
    (&[], "usage"),
    (&[""], "usage"),
    (&["table"], "usage"),
    (&["table", "u"], "usage"),
    (&["table", "u", "q"], "0 4 u q"),
    (&["table", "u", "q", "r"], "0 4 u q r"),
    (&["table", "u", "q", "q"], "0 4 u q q"),
    // the first word is the kind
    (&["Table", "u", "q"], "usage"),
    (&["--seed=1", "table", "u", "q"], "usage"),
    (&["names", "u", "q"], "usage"),
    (&["list", "--fold", "u", "q"], "usage"),
    (&["list", "u", "q"], "list 0 4 u q"),
    (
        &["list", "--seed=7", "u", "--workers", "2", "q", "r"],
        "list 7 2 u q r",
    ),
    (&["list", "u"], "usage"),
    (&["List", "u", "q"], "usage"),
    (&["--help"], "usage"),
    (&["--version"], "usage"),
    // options before, between and after the files
    (
        &["table", "--seed", "7", "--workers", "2", "u", "q"],
        "7 2 u q",
    ),
    (
        &["table", "u", "--seed=7", "q", "--workers=16", "r"],
        "7 16 u q r",
    ),
    (&["table", "u", "q", "--workers", "1"], "0 1 u q"),
    (&["table", "--fold", "u", "q"], "usage"),
    (&["table", "--help", "u", "q"], "usage"),
    (&["table", "u", "q", "-h"], "usage"),
    (&["table", "u", "q", "-V"], "usage"),
    (&["table", "help", "q"], "0 4 help q"),
    // no abbreviation, and no option twice
    (&["table", "--se", "1", "u", "q"], "usage"),
    (&["table", "--seeds", "1", "u", "q"], "usage"),
    (&["table", "-s", "1", "u", "q"], "usage"),
    (&["table", "--=1", "u", "q"], "usage"),
    (&["table", "--seed", "1", "--seed", "1", "u", "q"], "usage"),
    (
        &["table", "--workers", "2", "--workers=2", "u", "q"],
        "usage",
    ),
    // numbers within their limits, each by its one spelling
    (&["table", "--seed", "01", "u", "q"], "usage"),
    (&["table", "--seed=+1", "u", "q"], "usage"),
    (&["table", "--seed", "-1", "u", "q"], "usage"),
    (&["table", "--seed=-1", "u", "q"], "usage"),
    (&["table", "--seed= 1", "u", "q"], "usage"),
    (&["table", "--seed=1=1", "u", "q"], "usage"),
    (&["table", "--seed=0", "u", "q"], "0 4 u q"),
    (&["table", "--seed=00", "u", "q"], "usage"),
    (
        &["table", "--seed=18446744073709551615", "u", "q"],
        "18446744073709551615 4 u q",
    ),
    (&["table", "--seed=18446744073709551616", "u", "q"], "usage"),
    (&["table", "--workers", "0", "u", "q"], "usage"),
    (&["table", "--workers", "17", "u", "q"], "usage"),
    (&["table", "--workers", "016", "u", "q"], "usage"),
    // an option has a value
    (&["table", "u", "q", "--seed"], "usage"),
    (&["table", "--seed=", "u", "q"], "usage"),
    (&["table", "--seed", "", "u", "q"], "usage"),
    (&["table", "--seed", "--", "u", "q"], "usage"),
    (&["table", "--seed", "--workers", "2", "u", "q"], "usage"),
    // the end of the options
    (&["table", "--"], "usage"),
    (&["table", "--seed=7", "--", "u", "q"], "7 4 u q"),
    (&["table", "--", "-x", "q"], "0 4 -x q"),
    (&["table", "u", "--", "--seed", "--"], "0 4 u --seed --"),
    (&["table", "u", "q", "--"], "0 4 u q"),
    // names of files
    (&["table", "-", "-"], "0 4 - -"),
    (&["table", "-x", "q"], "usage"),
    (&["table", "-é", "q"], "usage"),
    (&["table", "é", "="], "0 4 é ="),
    (&["table", "", "q"], "usage"),
    (&["table", "u", "q", ""], "usage"),
    (&["table", "--", "u", ""], "usage"),
    (&["table", "judge", "q"], "0 4 judge q"),
];

// The seed and the lines of a summary: two numbers.
const SUMMARIES: &[(&[&str], &str)] = &[
    (&["make", "0", "1"], "make 0 1"),
    (&["make", "5", "0"], "make 5 0"),
    (
        &["make", "18446744073709551615", "999999"],
        "make 18446744073709551615 999999",
    ),
    (&["make", "18446744073709551616", "1"], "usage"),
    (&["make", "1", "1000000"], "usage"),
    (&["make"], "usage"),
    (&["make", "1"], "usage"),
    (&["make", "1", "1", "1"], "usage"),
    (&["make", "1", ""], "usage"),
    (&["make", "01", "1"], "usage"),
    (&["make", "1", "+1"], "usage"),
    (&["make", "--", "1"], "usage"),
    (&["make", "--", "1", "1"], "usage"),
    (&["make", "--seed=1", "1"], "usage"),
    (&["Make", "1", "1"], "usage"),
];

// The files of a judgment: a kind, and then files without options.
const JUDGMENTS: &[(&[&str], &str)] = &[
    (&["judge"], "usage"),
    (&["judge", "table"], "usage"),
    (&["judge", "table", "u", "q"], "usage"),
    (&["judge", "table", "u", "q", "r"], "judge u q r"),
    (&["judge", "table", "u", "--", "-q", "-"], "judge u -q -"),
    (&["judge", "table", "u", "q", ""], "usage"),
    (&["judge", "table", "u", "q", "-r"], "usage"),
    (&["judge", "table", "--seed=1", "u", "q", "r"], "usage"),
    (
        &["judge", "table", "u", "q", "r", "--workers", "4"],
        "usage",
    ),
    (&["judge", "table", "--fold", "u", "q", "r"], "usage"),
    (&["judge", "names", "u", "q", "r"], "usage"),
    (&["judge", "make", "u", "q", "r"], "usage"),
];

// What the words ask for, as text.
fn asked(alloc: Global, words: &[&str]) -> Result<String, AllocError> {
    let mut owned = Vec::new(alloc);
    for word in words {
        owned.push(String::from_str(alloc, word)?)?;
    }
    match read_words(alloc, &owned)? {
        None => String::from_str(alloc, "usage"),
        Some(Command::Make { seed, lines }) => format!(in alloc; "make {seed} {lines}"),
        Some(Command::Run(command)) => run_asked(alloc, &command),
        Some(Command::Judge(command)) => judgment_asked(alloc, &command),
    }
}

// The same of a judgment.
fn judgment_asked(alloc: Global, command: &JudgeCommand) -> Result<String, AllocError> {
    let mut text = format!(in alloc; "judge {}", command.updates)?;
    for other in &command.others {
        text.push(' ')?;
        text.push_str(other)?;
    }
    Ok(text)
}

// The same of a run of files.
fn run_asked(alloc: Global, command: &RunCommand) -> Result<String, AllocError> {
    let kind = if command.kind == Kind::List {
        "list "
    } else {
        ""
    };
    let mut text = format!(in alloc;
        "{kind}{} {} {}",
        command.seed, command.workers, command.updates
    )?;
    for query in &command.queries {
        text.push(' ')?;
        text.push_str(query)?;
    }
    Ok(text)
}

// These words, and then so many files.
fn files(
    alloc: Global,
    first: &[&'static str],
    count: usize,
) -> Result<Vec<&'static str>, AllocError> {
    let mut words = Vec::from_slice(alloc, first)?;
    for _ in 0..count {
        words.push("f")?;
    }
    Ok(words)
}

#[test]
fn what_a_run_asks_for(rt: HostRuntime) -> Result<(), AllocError> {
    for (words, wanted) in RUNS {
        assert_eq!(rt; asked(rt.alloc(), words)?.as_str(), *wanted, "at {words:?}");
    }
    Ok(())
}

#[test]
fn what_a_summary_asks_for(rt: HostRuntime) -> Result<(), AllocError> {
    for (words, wanted) in SUMMARIES {
        assert_eq!(rt; asked(rt.alloc(), words)?.as_str(), *wanted, "at {words:?}");
    }
    Ok(())
}

#[test]
fn what_a_judgment_asks_for(rt: HostRuntime) -> Result<(), AllocError> {
    for (words, wanted) in JUDGMENTS {
        assert_eq!(rt; asked(rt.alloc(), words)?.as_str(), *wanted, "at {words:?}");
    }
    Ok(())
}

#[test]
fn how_many_files(rt: HostRuntime) -> Result<(), AllocError> {
    let alloc = rt.alloc();
    let most = files(alloc, &["table"], 65)?;
    let more = files(alloc, &["table"], 66)?;
    assert!(rt; asked(alloc, &most)?.as_str().starts_with("0 4 f f"));
    assert_eq!(rt; asked(alloc, &more)?.as_str(), "usage");
    let most = files(alloc, &["judge", "table"], 66)?;
    let more = files(alloc, &["judge", "table"], 67)?;
    assert!(rt; asked(alloc, &most)?.as_str().starts_with("judge f f"));
    assert_eq!(rt; asked(alloc, &more)?.as_str(), "usage");
    Ok(())
}
