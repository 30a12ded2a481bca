ghost use Rattle.std.specs.Prelude.{◌≡◌, ◌≤◌, length, map, take};
ghost use Rattle.std.specs.Option.{option_map};
ghost use Rattle.std.specs.List.{find, position_or_len};
ghost use Rattle.ck_script.specs.Script.{said_of, updates, queries};
ghost use Rattle.ck_script.specs.Checks.{is_hold_beyond, is_wait_beyond, first_wait_beyond, range_fault};
ghost use Rattle.ck_script.specs.Shorts.{names_no_file, is_short};

use crate::circle::has_hold;
use crate::line::{AskLine, UpLine};
use crate::line_list::LineList;

/// A line that asks for what can't come: the number of its file, where 0 is the update file, and its own number.
#[derive(Clone, Copy, PartialEq, Eq, Debug)]
pub struct RangeFault {
    pub file: u64,
    pub line: u64,
}

/// The first line, by file and then by line, that asks for more than there is: a `wait` for more updates, or a
/// `hold` for a file that there isn't or for more queries than that file has.
pub fn check_ranges<C: Drop, A: Drop, U: LineList<UpLine<C>>, F: LineList<AskLine<A>>>(
    ups: &U,
    asks: &[F],
) -> Option<RangeFault>
    ensures { result ≡ range_fault (U.items ups.now) (map F.items asks.now) }
{
    match find_hold(ups, asks) {
        Some(line) => Some(RangeFault { file: 0, line }),
        None => find_wait(count_updates(ups), asks),
    }
}

// The number of the first `hold` line that is beyond. Where there is one at all, it makes a pass over the lines for each
// query file, up to the first that is beyond so far.
fn find_hold<C: Drop, A: Drop, U: LineList<UpLine<C>>, F: LineList<AskLine<A>>>(
    ups: &U,
    asks: &[F],
) -> Option<u64>
    ensures { result ≡ option_map (λ l. l.line) (find (λ l. is_hold_beyond (map said_of (map F.items asks.now)) l.what) (U.items ups.now)) }
{
    if !has_hold(ups) {
        return None;
    }
    let mut end = first_without_file(ups, asks.len() as u64);
    for (i, file) in asks.iter().enumerate() {
        end = first_short(ups, end, i as u64 + 1, count_queries(file));
    }
    if end == ups.len() {
        return None;
    }
    Some(ups.get(end).line)
}

// The index of the first `hold` line for none of the query files, or the number of lines.
fn first_without_file<C: Drop, U: LineList<UpLine<C>>>(ups: &U, files: u64) -> usize
    ensures first { result ≡ position_or_len (λ l. names_no_file files l.what) (U.items ups.now) }
    ensures within { result ≤ length (U.items ups.now) }
{
    for i in 0..ups.len() {
        if has_no_file(&ups.what(i), files) {
            return i;
        }
    }
    ups.len()
}

// Whether this is a `hold` line for none of the query files.
fn has_no_file<C>(what: &UpLine<C>, files: u64) -> bool
    ensures { result ≡ names_no_file files what.now }
{
    match what {
        UpLine::Call(_) => false,
        UpLine::Hold { file, .. } => *file == 0 || *file > files,
    }
}

// The index of the first `hold` line for more than n queries of file f among the lines before `end`, or `end`.
fn first_short<C: Drop, U: LineList<UpLine<C>>>(ups: &U, end: usize, f: u64, n: u64) -> usize
    requires { end ≤ length (U.items ups.now) }
    ensures first { result ≡ position_or_len (λ l. is_short f n l.what) (take end (U.items ups.now)) }
    ensures within { result ≤ end }
{
    for i in 0..end {
        if asks_for_more(&ups.what(i), f, n) {
            return i;
        }
    }
    end
}

// Whether this is a `hold` line for more than n queries of file f.
fn asks_for_more<C>(what: &UpLine<C>, f: u64, n: u64) -> bool
    ensures { result ≡ is_short f n what.now }
{
    match what {
        UpLine::Call(_) => false,
        UpLine::Hold { file, n: count } => *file == f && *count > n,
    }
}

// The first `wait` line that is beyond, where there are so many updates.
fn find_wait<A: Drop, F: LineList<AskLine<A>>>(all: u64, asks: &[F]) -> Option<RangeFault>
    ensures { result ≡ first_wait_beyond all 1 (map F.items asks.now) }
{
    for (i, file) in asks.iter().enumerate() {
        if let Some(line) = find_wait_in(all, file) {
            return Some(RangeFault {
                file: i as u64 + 1,
                line,
            });
        }
    }
    None
}

// The number of the first `wait` line of a file that is beyond.
fn find_wait_in<A: Drop, F: LineList<AskLine<A>>>(all: u64, lines: &F) -> Option<u64>
    ensures { result ≡ option_map (λ l. l.line) (find (λ l. is_wait_beyond all l.what) (F.items lines.now)) }
{
    for i in 0..lines.len() {
        if wait_is_beyond(all, &lines.what(i)) {
            return Some(lines.get(i).line);
        }
    }
    None
}

// Whether this is a `wait` line that is beyond.
fn wait_is_beyond<A>(all: u64, what: &AskLine<A>) -> bool
    ensures { result ≡ is_wait_beyond all what.now }
{
    match what {
        AskLine::Ask(_) => false,
        AskLine::Wait { n } => all < *n,
    }
}

// The number of updates.
fn count_updates<C: Drop, U: LineList<UpLine<C>>>(ups: &U) -> u64
    ensures { result ≡ length (updates (said_of (U.items ups.now))) }
{
    let mut n: u64 = 0;
    for i in 0..ups.len() {
        match ups.what(i) {
            UpLine::Call(_) => n += 1,
            UpLine::Hold { .. } => {}
        }
    }
    n
}

// The number of queries.
fn count_queries<A: Drop, F: LineList<AskLine<A>>>(lines: &F) -> u64
    ensures { result ≡ length (queries 0 (said_of (F.items lines.now))) }
{
    let mut n: u64 = 0;
    for i in 0..lines.len() {
        match lines.what(i) {
            AskLine::Ask(_) => n += 1,
            AskLine::Wait { .. } => {}
        }
    }
    n
}
