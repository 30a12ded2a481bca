ghost use Rattle.std.specs.Prelude.{◌≡◌, map, OnOk, IfErr};
ghost use Rattle.ck_report.specs.Reports.{parts_of};
ghost use Rattle.ck_report.specs.Lines.{AddsLine, AddsAnswer};
ghost use Rattle.ck_report.specs.declared.map_report.ReportError.TheVariants.{Memory};

use crate::asked::Asked;
use crate::line::ReportLine;
use crate::map_report::{MapReport, ReportError};
use std::alloc::Global;

/// Adds what a line says to what was read before it.
pub fn add<K: Copy>(
    alloc: Global,
    report: &mut MapReport<K>,
    said: ReportLine<K>,
) -> Result<(), ReportError>
    ensures ok { OnOk result (AddsLine said (parts_of report.old) (parts_of report.new)) }
    ensures err { IfErr result (λ error. error ≡ Memory) }
{
    match said {
        ReportLine::Update { reply, .. } => Ok(report.replies.push(reply)?),
        ReportLine::Answer {
            file,
            number,
            asked,
        } => add_answer(alloc, &mut report.answers, file, number, asked),
        ReportLine::Pair { key, value } => Ok(report.pairs.push((key, value))?),
        ReportLine::End => Ok(()),
    }
}

// Adds an answer: the first one of a file begins a list, each later one goes to the end of the last list.
fn add_answer<K: Copy>(
    alloc: Global,
    answers: &mut Vec<(u64, Vec<Asked<K>>)>,
    file: u64,
    number: u64,
    asked: Asked<K>,
) -> Result<(), ReportError>
    ensures ok { OnOk result (AddsAnswer file number asked
        (map (λ file. (file.0, file.1.items)) answers.old.items)
        (map (λ file. (file.0, file.1.items)) answers.new.items)) }
    ensures err { IfErr result (λ error. error ≡ Memory) }
{
    if number == 1 {
        let mut first = Vec::new(alloc);
        first.push(asked)?;
        return Ok(answers.push((file, first))?);
    }
    match answers.pop() {
        None => Ok(()),
        Some((last, mut list)) => {
            list.push(asked)?;
            Ok(answers.push((last, list))?)
        }
    }
}
