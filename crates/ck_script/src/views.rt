//! Scripts of lists that ask for more than a run answers.
ghost use Rattle.std.specs.Prelude.{◌≡◌, ◌+◌, ◌∷◌, [], Some, length, map, slice_get, MatchResult};
ghost use Rattle.ck_script.specs.Views.{query_lines, many_fault};

use crate::check::RangeFault;
use crate::line::{AskLine, Numbered};
use crate::line_list::LineList;

/// How many `all` lines the query files of a run may have together.
pub const MOST_VIEWS: u64 = 1000;

/// The first `all` line that is one too many, counted over the query files in order, where there are more than
/// `MOST_VIEWS` of them.
pub fn check_views<F: LineList<AskLine<()>>>(asks: &[F]) -> Option<RangeFault>
    ensures { result ≡ many_fault (map F.items asks.now) }
{
    let mut left = MOST_VIEWS;
    for (i, file) in asks.iter().enumerate() {
        match find_query(file, left) {
            Ok(line) => {
                return Some(RangeFault {
                    file: i as u64 + 1,
                    line,
                });
            }
            Err(fewer) => left = fewer,
        }
    }
    None
}

// The number of the line of the query that n others stand before, or, where there is none, how many are wanting to n.
fn find_query<A: Drop, F: LineList<AskLine<A>>>(lines: &F, n: u64) -> Result<u64, u64>
    ensures { MatchResult result (λ line. slice_get (query_lines (F.items lines.now)) n ≡ Some line) (λ fewer. fewer + length (query_lines (F.items lines.now)) ≡ n) }
{
    let mut left = n;
    for i in 0..lines.len() {
        match next_query(&lines.get(i), left) {
            Ok(number) => return Ok(number),
            Err(fewer) => left = fewer,
        }
    }
    Err(left)
}

// The same of one line.
fn next_query<A>(line: &Numbered<AskLine<A>>, n: u64) -> Result<u64, u64>
    ensures { MatchResult result (λ number. slice_get (query_lines (line.now ∷ [])) n ≡ Some number) (λ fewer. fewer + length (query_lines (line.now ∷ [])) ≡ n) }
{
    match line.what {
        AskLine::Ask(_) => { if n == 0 { Ok(line.line) } else { Err(n - 1) } }
        AskLine::Wait { .. } => Err(n),
    }
}
