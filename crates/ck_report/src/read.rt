ghost use Rattle.std.specs.Prelude.{◌≡◌, ◌<◌, ◌++◌, MatchOption, IfOk, IfErr, OnOk, length};
ghost use Rattle.ck_text.specs.Words.{line};
ghost use Rattle.ck_report.specs.Reports.{Reads, IsReport, BreaksAt, IfFaultLine, parts_of};
ghost use Rattle.ck_report.specs.Lines.{CanFollow, NoneBegins, IsRead, line_words};

use crate::gather::add;
use crate::line::ReportLine;
use crate::map_report::{MapReport, ReportError};
use crate::place::Place;
use crate::read_line::read_line;
use ck_script::KeyWord;
use ck_text::cut;
use std::alloc::Global;

/// The parts of a map report. What `report_map` prints of them, with an empty list for each file below the last one that
/// isn't named, is the text that was read. `Fault` comes exactly where the text is no report.
pub fn read_map_report<K: KeyWord + Ord>(
    alloc: Global,
    bytes: &[u8],
) -> Result<MapReport<K>, ReportError>
    ensures read { IfOk result (λ report. Reads K.is_key K.spelling K.cmp bytes.now (parts_of report)) }
    ensures fault { IfErr result (λ error. IfFaultLine error (BreaksAt K.is_key K.spelling K.cmp bytes.now)) }
    ensures refused { IfErr result (λ error. IfFaultLine error (λ _. IsReport K.is_key K.spelling K.cmp bytes.now → ⊥)) }
{
    let mut report = MapReport {
        replies: Vec::new(alloc),
        answers: Vec::new(alloc),
        pairs: Vec::new(alloc),
    };
    let mut place = Place::AfterUpdate(0);
    let mut rest = bytes;
    let mut number: u64 = 0;
    while !rest.is_empty() {
        number += 1;
        match first_line(&place, rest) {
            None => return Err(ReportError::Fault { line: number }),
            Some((said, later)) => {
                add(alloc, &mut report, said)?;
                place = said.place();
                rest = later;
            }
        }
    }
    if place.is_end() {
        Ok(report)
    } else {
        Err(ReportError::Fault { line: number + 1 })
    }
}

// The first line of the text, where it may stand at this place, and the text after it.
fn first_line<'a, K: KeyWord + Ord>(
    place: &Place<K>,
    text: &'a [u8],
) -> Option<(ReportLine<K>, &'a [u8])>
    requires { 0 < length text.now }
    ensures { MatchOption result
        (NoneBegins K.is_key K.spelling K.cmp place.now text.now)
        (λ x. CanFollow K.is_key K.cmp place.now x.0 × (text.now ≡ line (line_words K.spelling x.0) ++ x.1.now) × (length x.1.now < length text.now)) }
{
    let (bytes, later) = cut(text, b'\n');
    match later {
        None => None,
        Some(later) => match next_line(place, bytes) {
            None => None,
            Some(said) => Some((said, later)),
        },
    }
}

// What the line says, where it may stand at this place.
fn next_line<K: KeyWord + Ord>(place: &Place<K>, bytes: &[u8]) -> Option<ReportLine<K>>
    ensures { IsRead (CanFollow K.is_key K.cmp place.now) (line_words K.spelling) bytes.now result }
{
    match read_line(bytes) {
        None => None,
        Some(said) => {
            if place.leads_to(&said.place()) {
                Some(said)
            } else {
                None
            }
        }
    }
}
