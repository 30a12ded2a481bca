ghost use Rattle.std.specs.Prelude.{◌≡◌, ◌+◌, ◌<◌, ◌≤◌, ◌^◌, ℕ, ◌∷◌, [], length, map, take, MatchOption};
ghost use Rattle.std.specs.List.{list_any, position_or_len};
ghost use Rattle.ck_script.specs.declared.line.AskLine.TheVariants.{Ask};
ghost use Rattle.ck_script.specs.Script.{said_of, updates};
ghost use Rattle.ck_script.specs.Checks.{placed, circle_fault};
ghost use Rattle.ck_script.specs.Fronts.{is_hold, is_circle_with, IsFront, IsStop, IsLonger};

use crate::check::RangeFault;
use crate::line::{AskLine, UpLine};
use crate::line_list::LineList;

/// The first `hold` line that would wait for ever, as a line of file 0: of the queries that it waits for one stands
/// after a `wait` line for more updates than stand before the `hold`, so that the two would wait for each other.
/// `hold f 0` never does. It makes one pass over the updates for each query file, and one alone where no line is a `hold`.
pub fn check_circles<C: Drop, A: Drop, U: LineList<UpLine<C>>, F: LineList<AskLine<A>>>(
    ups: &U,
    asks: &[F],
) -> Option<RangeFault>
    ensures { result ≡ circle_fault (U.items ups.now) (map F.items asks.now) }
{
    if !has_hold(ups) {
        return None;
    }
    let mut end = ups.len();
    for (i, file) in asks.iter().enumerate() {
        end = first_circle(ups, end, i as u64 + 1, file);
    }
    if end == ups.len() {
        return None;
    }
    Some(RangeFault {
        file: 0,
        line: ups.get(end).line,
    })
}

/// Whether there is a `hold` line.
pub fn has_hold<C: Drop, U: LineList<UpLine<C>>>(ups: &U) -> bool
    ensures { result ≡ list_any (λ l. is_hold l.what) (U.items ups.now) }
{
    for i in 0..ups.len() {
        match ups.what(i) {
            UpLine::Call(_) => {}
            UpLine::Hold { .. } => return true,
        }
    }
    false
}

// The index of the first line before `end` that is a circle with file f, or `end` where there is none.
fn first_circle<C: Drop, A: Drop, U: LineList<UpLine<C>>, F: LineList<AskLine<A>>>(
    ups: &U,
    end: usize,
    f: u64,
    lines: &F,
) -> usize
    requires { end ≤ length (U.items ups.now) }
    ensures first { result ≡ position_or_len (λ l. is_circle_with f (said_of (F.items lines.now)) l.0 l.1.what) (placed 0 (take end (U.items ups.now))) }
    ensures within { result ≤ end }
{
    let mut front = Front {
        at: 0,
        low: 0,
        queries: 0,
    };
    let mut m: u64 = 0;
    for i in 0..end {
        let what = ups.what(i);
        let (next, circle) = look(lines, front, f, m, &what);
        if circle {
            return i;
        }
        front = next;
        m += updates_on(&what);
    }
    end
}

// How many updates a line is.
fn updates_on<C>(what: &UpLine<C>) -> u64
    ensures count { result ≡ length (updates (what.now ∷ [])) }
    ensures small { result ≤ 1 }
{
    match what {
        UpLine::Call(_) => 1,
        UpLine::Hold { .. } => 0,
    }
}

// The first lines of a query file: how many, the greatest count of the `wait` lines among them, and how many queries.
#[derive(Clone, Copy)]
struct Front {
    at: usize,
    low: u64,
    queries: u64,
}

// Whether a line after m updates is a circle with file f, and the front that was moved on to see it.
fn look<C, A: Drop, F: LineList<AskLine<A>>>(
    lines: &F,
    front: Front,
    f: u64,
    m: u64,
    what: &UpLine<C>,
) -> (Front, bool)
    requires { IsFront m (F.items lines.now) front }
    ensures front { IsFront m (F.items lines.now) result.0 }
    ensures circle { result.1 ≡ is_circle_with f (said_of (F.items lines.now)) m what.now }
{
    match what {
        UpLine::Call(_) => (front, false),
        UpLine::Hold { file, n } => {
            if *file != f {
                return (front, false);
            }
            let next = moved(lines, front, m);
            (next, next.at < lines.len() && next.queries < *n)
        }
    }
}

// The front, moved on past each query that needs at most m updates.
fn moved<A: Drop, F: LineList<AskLine<A>>>(lines: &F, start: Front, m: u64) -> Front
    requires { IsFront m (F.items lines.now) start }
    ensures front { IsFront m (F.items lines.now) result }
    ensures stop { IsStop m (F.items lines.now) result }
{
    let mut front = start;
    while front.at < lines.len() {
        let next = past(front, &lines.what(front.at), m);
        match next {
            Some(longer) => front = longer,
            None => return front,
        }
    }
    front
}

// The front with one more line, unless that is a query that needs more than m updates.
fn past<A>(front: Front, what: &AskLine<A>, m: u64) -> Option<Front>
    requires at { front.at + 1 < 2 ^ 64 }
    requires queries { front.queries ≤ front.at }
    ensures { MatchOption result ((key : _) × (what.now ≡ Ask key) × (m < front.low)) (IsLonger m front what.now) }
{
    match what {
        AskLine::Ask(_) => {
            if front.low > m {
                return None;
            }
            Some(Front {
                at: front.at + 1,
                low: front.low,
                queries: front.queries + 1,
            })
        }
        AskLine::Wait { n } => Some(Front {
            at: front.at + 1,
            low: front.low.max(*n),
            queries: front.queries,
        }),
    }
}
