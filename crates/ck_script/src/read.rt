ghost use Rattle.std.specs.Prelude.{◌≡◌, ◌<◌, ◌^◌, ◌++◌, ◌||◌, [], ◌∷◌, length, IfOk, IfErr, OnOk};
ghost use Rattle.std.specs.List.{list_any};
ghost use Rattle.ck_script.specs.declared.fault.ScriptError.TheVariants.{Memory};
ghost use Rattle.ck_script.specs.Fronts.{is_wait, any_hold};
ghost use Rattle.ck_script.specs.Grammar.{FileSays, IsFirstFault, IfFault, Adds, HasFault, update_words, IsUpdateLine, update_verbs, query_words, IsQueryLine, query_verbs};
ghost use Rattle.ck_script.specs.ListGrammar.{edit_words, IsEditLine, edit_verbs, view_words, IsViewLine, view_verbs, HasListFault};
ghost use Rattle.ck_script.specs.Reading.{IsFaultyFirstLine, IsFaultyLine, TakesLine};

use crate::compact::{CompactKey, CompactLine};
use crate::fault::{ScriptError, ScriptFault, Why};
use crate::key_word::KeyWord;
use crate::line::{AskLine, Numbered, UpLine};
use crate::lines::Lines;
use crate::script_line::ScriptLine;
use ck_history::{Edit, Update};
use ck_text::first_line;
use std::alloc::{AllocError, Global};

/// What the lines of an update file say, in order, blank lines and comments left out. A file says at most one thing.
pub fn read_updates<K: KeyWord + CompactKey>(
    alloc: Global,
    bytes: &[u8],
) -> Result<Lines<UpLine<Update<K>>>, ScriptError>
    ensures read { IfOk result (λ said. FileSays (IsUpdateLine K.is_key) (update_words K.spelling) bytes.now said.items) }
    ensures only { IfOk result (λ said. (other : _) → FileSays (IsUpdateLine K.is_key) (update_words K.spelling) bytes.now other → other ≡ said.items) }
    ensures fault { IfErr result (λ error. IfFault error
        (IsFirstFault (IsUpdateLine K.is_key) (update_words K.spelling) (HasFault K.is_key K.spelling K.is_fault update_verbs) bytes.now)) }
{
    let (said, _) = scan_updates(alloc, bytes)?;
    Ok(said)
}

/// What the lines of a query file say, in order, blank lines and comments left out. A file says at most one thing.
pub fn read_queries<K: KeyWord + CompactKey>(
    alloc: Global,
    bytes: &[u8],
) -> Result<Lines<AskLine<K>>, ScriptError>
    ensures read { IfOk result (λ said. FileSays (IsQueryLine K.is_key) (query_words K.spelling) bytes.now said.items) }
    ensures only { IfOk result (λ said. (other : _) → FileSays (IsQueryLine K.is_key) (query_words K.spelling) bytes.now other → other ≡ said.items) }
    ensures fault { IfErr result (λ error. IfFault error
        (IsFirstFault (IsQueryLine K.is_key) (query_words K.spelling) (HasFault K.is_key K.spelling K.is_fault query_verbs) bytes.now)) }
{
    let (said, _) = scan_queries(alloc, bytes)?;
    Ok(said)
}

/// What `read_updates` reads, and whether a line of it is a `hold`, so that a caller needs no pass of its own to see it.
pub fn scan_updates<K: KeyWord + CompactKey>(
    alloc: Global,
    bytes: &[u8],
) -> Result<(Lines<UpLine<Update<K>>>, bool), ScriptError>
    ensures read { IfOk result (λ x. FileSays (IsUpdateLine K.is_key) (update_words K.spelling) bytes.now x.0.items) }
    ensures only { IfOk result (λ x. (other : _) → FileSays (IsUpdateLine K.is_key) (update_words K.spelling) bytes.now other → other ≡ x.0.items) }
    ensures holds { IfOk result (λ x. x.1 ≡ any_hold x.0.items) }
    ensures fault { IfErr result (λ error. IfFault error
        (IsFirstFault (IsUpdateLine K.is_key) (update_words K.spelling) (HasFault K.is_key K.spelling K.is_fault update_verbs) bytes.now)) }
{
    read_lines(alloc, bytes)
}

/// What `read_queries` reads, and whether a line of it is a `wait`.
pub fn scan_queries<K: KeyWord + CompactKey>(
    alloc: Global,
    bytes: &[u8],
) -> Result<(Lines<AskLine<K>>, bool), ScriptError>
    ensures read { IfOk result (λ x. FileSays (IsQueryLine K.is_key) (query_words K.spelling) bytes.now x.0.items) }
    ensures only { IfOk result (λ x. (other : _) → FileSays (IsQueryLine K.is_key) (query_words K.spelling) bytes.now other → other ≡ x.0.items) }
    ensures waits { IfOk result (λ x. x.1 ≡ list_any (λ l. is_wait l.what) x.0.items) }
    ensures fault { IfErr result (λ error. IfFault error
        (IsFirstFault (IsQueryLine K.is_key) (query_words K.spelling) (HasFault K.is_key K.spelling K.is_fault query_verbs) bytes.now)) }
{
    read_lines(alloc, bytes)
}

/// What the lines of an update file of a list say, in order, blank lines and comments left out. A file says at most one thing.
pub fn read_edits(alloc: Global, bytes: &[u8]) -> Result<Lines<UpLine<Edit>>, ScriptError>
    ensures read { IfOk result (λ said. FileSays IsEditLine edit_words bytes.now said.items) }
    ensures only { IfOk result (λ said. (other : _) → FileSays IsEditLine edit_words bytes.now other → other ≡ said.items) }
    ensures fault { IfErr result (λ error. IfFault error (IsFirstFault IsEditLine edit_words (HasListFault edit_verbs) bytes.now)) }
{
    let (said, _) = scan_edits(alloc, bytes)?;
    Ok(said)
}

/// What the lines of a query file of a list say, in order, blank lines and comments left out. A file says at most one thing.
pub fn read_views(alloc: Global, bytes: &[u8]) -> Result<Lines<AskLine<()>>, ScriptError>
    ensures read { IfOk result (λ said. FileSays IsViewLine view_words bytes.now said.items) }
    ensures only { IfOk result (λ said. (other : _) → FileSays IsViewLine view_words bytes.now other → other ≡ said.items) }
    ensures fault { IfErr result (λ error. IfFault error (IsFirstFault IsViewLine view_words (HasListFault view_verbs) bytes.now)) }
{
    let (said, _) = scan_views(alloc, bytes)?;
    Ok(said)
}

/// What `read_edits` reads, and whether a line of it is a `hold`.
pub fn scan_edits(alloc: Global, bytes: &[u8]) -> Result<(Lines<UpLine<Edit>>, bool), ScriptError>
    ensures read { IfOk result (λ x. FileSays IsEditLine edit_words bytes.now x.0.items) }
    ensures only { IfOk result (λ x. (other : _) → FileSays IsEditLine edit_words bytes.now other → other ≡ x.0.items) }
    ensures holds { IfOk result (λ x. x.1 ≡ any_hold x.0.items) }
    ensures fault { IfErr result (λ error. IfFault error (IsFirstFault IsEditLine edit_words (HasListFault edit_verbs) bytes.now)) }
{
    read_lines(alloc, bytes)
}

/// What `read_views` reads, and whether a line of it is a `wait`.
pub fn scan_views(alloc: Global, bytes: &[u8]) -> Result<(Lines<AskLine<()>>, bool), ScriptError>
    ensures read { IfOk result (λ x. FileSays IsViewLine view_words bytes.now x.0.items) }
    ensures only { IfOk result (λ x. (other : _) → FileSays IsViewLine view_words bytes.now other → other ≡ x.0.items) }
    ensures waits { IfOk result (λ x. x.1 ≡ list_any (λ l. is_wait l.what) x.0.items) }
    ensures fault { IfErr result (λ error. IfFault error (IsFirstFault IsViewLine view_words (HasListFault view_verbs) bytes.now)) }
{
    read_lines(alloc, bytes)
}

// What the lines of one kind say, and whether a task may have to wait at one of them.
fn read_lines<L: ScriptLine + CompactLine>(
    alloc: Global,
    bytes: &[u8],
) -> Result<(Lines<L>, bool), ScriptError>
    ensures read { IfOk result (λ x. FileSays L.is_taken L.spelling bytes.now x.0.items) }
    ensures only { IfOk result (λ x. (other : _) → FileSays L.is_taken L.spelling bytes.now other → other ≡ x.0.items) }
    ensures waits { IfOk result (λ x. x.1 ≡ list_any (λ l. L.waits l.what) x.0.items) }
    ensures fault { IfErr result (λ error. IfFault error (IsFirstFault L.is_taken L.spelling L.is_fault bytes.now)) }
{
    let mut said = Lines::new(alloc);
    let mut waits = false;
    let mut rest = bytes;
    let mut number: u64 = 0;
    while !rest.is_empty() {
        number += 1;
        rest = take_line(&mut said, &mut waits, number, rest)?;
    }
    Ok((said, waits))
}

// Adds what the first line of a text says, if it says something. The text after it is left.
fn take_line<'a, L: ScriptLine + CompactLine>(
    said: &mut Lines<L>,
    waits: &mut bool,
    number: u64,
    text: &'a [u8],
) -> Result<&'a [u8], ScriptError>
    requires { 0 < length text.now }
    ensures ok { IfOk result (λ later. TakesLine L.is_taken L.spelling number text.now later.now said.old.items said.new.items) }
    ensures waits { waits.old ≡ list_any (λ l. L.waits l.what) said.old.items → OnOk result (waits.new ≡ list_any (λ l. L.waits l.what) said.new.items) }
    ensures fault { IfErr result (λ error. IfFault error (IsFaultyFirstLine L.is_fault number text.now)) }
{
    // Nearly every line is a verb with a short key and a short number, and is read in the same pass that finds its end.
    // Any other line, a faulty one too, is cut out first and judged as a whole.
    match L::read_prefix(text) {
        Some((what, n)) => {
            add(said, waits, number, what)?;
            Ok(text.split_at(n).1)
        }
        None => {
            let (line, later) = first_line(text);
            add_line(said, waits, number, line)?;
            Ok(later)
        }
    }
}

// Adds what a line says, if it says something.
fn add_line<L: ScriptLine + CompactLine>(
    said: &mut Lines<L>,
    waits: &mut bool,
    number: u64,
    line: &[u8],
) -> Result<(), ScriptError>
    ensures ok { OnOk result (Adds L.is_taken L.spelling number line.now said.old.items said.new.items) }
    ensures waits { waits.old ≡ list_any (λ l. L.waits l.what) said.old.items → OnOk result (waits.new ≡ list_any (λ l. L.waits l.what) said.new.items) }
    ensures fault { IfErr result (λ error. IfFault error (IsFaultyLine L.is_fault number line.now)) }
{
    if line.is_empty() || line[0] == b'#' {
        return Ok(());
    }
    match L::read_line(line) {
        Ok(what) => add(said, waits, number, what),
        Err(why) => Err(ScriptError::Fault(ScriptFault { line: number, why })),
    }
}

// Adds what the line with this number says.
fn add<L: ScriptLine + CompactLine>(
    said: &mut Lines<L>,
    waits: &mut bool,
    number: u64,
    what: L,
) -> Result<(), ScriptError>
    ensures ok { OnOk result (said.new.items ≡ said.old.items ++ record { line = number; what = what } ∷ []) }
    ensures waits { waits.old ≡ list_any (λ l. L.waits l.what) said.old.items → OnOk result (waits.new ≡ list_any (λ l. L.waits l.what) said.new.items) }
    ensures memory { IfErr result (λ error. error ≡ Memory) }
{
    *waits = *waits || what.waits();
    said.push(Numbered { line: number, what })?;
    Ok(())
}
