//! The judge beside a slow one, which goes through all lists of places, on all scripts and reports of a small size.
use crate::tests::verdict_text;
use std::alloc::{AllocError, Global};
use std::test::Fail;

const UPDATES: [&str; 4] = ["set 1 5", "put 1 6", "del 1", "tidy"];

// What key 1 has after an update, and the reply.
fn stepped(
    alloc: Global,
    value: Option<u64>,
    update: &str,
) -> Result<(Option<u64>, String), AllocError> {
    match (update, value) {
        ("set 1 5", None) => Ok((Some(5), format!(in alloc; "fresh")?)),
        ("set 1 5", Some(old)) => Ok((Some(5), format!(in alloc; "was {old}")?)),
        ("put 1 6", None) => Ok((Some(6), format!(in alloc; "fresh")?)),
        ("put 1 6", Some(old)) => Ok((Some(old), format!(in alloc; "has {old}")?)),
        ("del 1", None) => Ok((None, format!(in alloc; "missing")?)),
        ("del 1", Some(old)) => Ok((None, format!(in alloc; "was {old}")?)),
        _ => Ok((value, format!(in alloc; "tidied")?)),
    }
}

// An update file, its replies as a report has them, and what key 1 has after 0, 1, .. updates.
#[derive(Drop)]
struct Small {
    updates: String,
    replies: Vec<String>,
    values: Vec<Option<u64>>,
}

fn make_small(alloc: Global, chosen: &[usize]) -> Result<Small, AllocError> {
    let mut updates = String::new(alloc);
    let mut replies = Vec::new(alloc);
    let mut values = Vec::new(alloc);
    let mut value = None;
    values.push(value)?;
    for at in chosen {
        let update = UPDATES.get(*at).copied().unwrap_or("tidy");
        updates.push_str(update)?;
        updates.push_str("\n")?;
        let (after, reply) = stepped(alloc, value, update)?;
        value = after;
        values.push(value)?;
        replies.push(reply)?;
    }
    Ok(Small {
        updates,
        replies,
        values,
    })
}

// All lists of so many numbers below `base`.
fn all_lists(alloc: Global, base: usize, count: usize) -> Result<Vec<Vec<usize>>, AllocError> {
    let mut lists = Vec::new(alloc);
    lists.push(Vec::new(alloc))?;
    for _ in 0..count {
        let mut longer = Vec::new(alloc);
        for list in lists.iter() {
            for number in 0..base {
                let mut more = Vec::from_slice(alloc, list.as_slice())?;
                more.push(number)?;
                longer.push(more)?;
            }
        }
        lists = longer;
    }
    Ok(lists)
}

// Whether these are places of the answers, each within its query's bounds.
fn are_places(
    values: &[Option<u64>],
    bounds: &[(usize, usize)],
    answers: &[Option<u64>],
    places: &[usize],
) -> bool {
    let mut last = 0;
    for ((place, bound), answer) in places.iter().zip(bounds.iter()).zip(answers.iter()) {
        let fits = *place >= last && *place >= bound.0 && *place <= bound.1;
        if !fits || values.get(*place) != Some(answer) {
            return false;
        }
        last = *place;
    }
    true
}

// The least place of each of the first answers, of all lists of places that there are.
fn least_places(
    alloc: Global,
    values: &[Option<u64>],
    bounds: &[(usize, usize)],
    answers: &[Option<u64>],
    count: usize,
) -> Result<Option<Vec<usize>>, AllocError> {
    let mut least: Option<Vec<usize>> = None;
    for places in all_lists(alloc, values.len(), count)?.iter() {
        if are_places(values, bounds, answers, places.as_slice()) {
            match &mut least {
                None => least = Some(Vec::from_slice(alloc, places.as_slice())?),
                Some(found) => {
                    for (one, other) in found.iter_mut().zip(places.iter()) {
                        *one = (*one).min(*other);
                    }
                }
            }
        }
    }
    Ok(least)
}

// The verdict on the answers to queries with these bounds, where replies and table are right.
fn searched_verdict(
    alloc: Global,
    values: &[Option<u64>],
    bounds: &[(usize, usize)],
    answers: &[Option<u64>],
) -> Result<String, AllocError> {
    let mut least = None;
    for number in 0..bounds.len().max(answers.len()).saturating_add(1) {
        if number > bounds.len() || number > answers.len() {
            return format!(in alloc; "Place {{ file: 1, query: {number} }}");
        }
        least = least_places(alloc, values, bounds, answers, number)?;
        if least.is_none() {
            return format!(in alloc; "Place {{ file: 1, query: {number} }}");
        }
    }
    match least {
        Some(places) => format!(in alloc; "Legal {{ least: [Places {{ places: {places:?} }}] }}"),
        None => format!(in alloc; "no places"),
    }
}

// What a report has that is wrong, beside its answers.
#[derive(Clone, Copy, PartialEq, Eq)]
enum Flaw {
    None,
    // Its last reply, or its last pair, is missing, surplus or another.
    NoReply,
    MoreReplies,
    OtherReply,
    NoPair,
    MorePairs,
    OtherPair,
}

const FLAWS: [Flaw; 7] = [
    Flaw::None,
    Flaw::NoReply,
    Flaw::MoreReplies,
    Flaw::OtherReply,
    Flaw::NoPair,
    Flaw::MorePairs,
    Flaw::OtherPair,
];

// The lines of the replies, with the flaw, and what is wrong with them.
fn flawed_replies(
    alloc: Global,
    right: &[String],
    flaw: Flaw,
) -> Result<(String, Option<String>), AllocError> {
    let mut lines = String::new(alloc);
    let count = right.len();
    for (i, reply) in right.iter().enumerate() {
        let number = i.saturating_add(1);
        if flaw == Flaw::NoReply && number == count {
            return Ok((lines, Some(format!(in alloc; "Reply {{ at: {number} }}")?)));
        }
        if flaw == Flaw::OtherReply && number == count {
            lines.push_str(format!(in alloc; "u {number} full\n")?.as_str())?;
            return Ok((lines, Some(format!(in alloc; "Reply {{ at: {number} }}")?)));
        }
        lines.push_str(format!(in alloc; "u {number} {reply}\n")?.as_str())?;
    }
    if flaw == Flaw::MoreReplies {
        let number = count.saturating_add(1);
        lines.push_str(format!(in alloc; "u {number} full\n")?.as_str())?;
        return Ok((lines, Some(format!(in alloc; "Reply {{ at: {number} }}")?)));
    }
    Ok((lines, None))
}

// The lines of the pairs, where key 1 has this value, with the flaw, and what is wrong with them.
fn flawed_pairs(
    alloc: Global,
    value: Option<u64>,
    flaw: Flaw,
) -> Result<(String, Option<String>), AllocError> {
    let first = Some(String::from_str(alloc, "Table { at: 1 }")?);
    match (value, flaw) {
        (Some(_), Flaw::NoPair) => Ok((String::new(alloc), first)),
        (Some(v), Flaw::MorePairs) => Ok((
            format!(in alloc; "t 1 = {v}\nt 2 = 5\n")?,
            Some(String::from_str(alloc, "Table { at: 2 }")?),
        )),
        (None, Flaw::MorePairs) => Ok((String::from_str(alloc, "t 2 = 5\n")?, first)),
        (Some(_), Flaw::OtherPair) => Ok((String::from_str(alloc, "t 1 = 7\n")?, first)),
        (Some(v), _) => Ok((format!(in alloc; "t 1 = {v}\n")?, None)),
        (None, _) => Ok((String::new(alloc), None)),
    }
}

// A query file that asks so often for key 1, each time behind a `wait`, and the bounds of its queries.
fn waiting_queries(
    alloc: Global,
    waits: &[usize],
    held: Option<usize>,
    count: usize,
) -> Result<(String, Vec<(usize, usize)>), AllocError> {
    let mut text = String::new(alloc);
    let mut bounds = Vec::new(alloc);
    let mut least = 0;
    for wait in waits {
        text.push_str(format!(in alloc; "wait {wait}\nget 1\n")?.as_str())?;
        least = least.max(*wait);
        // A line `hold 1 1` bounds the first query alone.
        let greatest = if bounds.is_empty() {
            held.unwrap_or(count)
        } else {
            count
        };
        bounds.push((least, greatest))?;
    }
    Ok((text, bounds))
}

// The lines of these answers.
fn answer_lines(alloc: Global, answers: &[Option<u64>]) -> Result<String, AllocError> {
    let mut text = String::new(alloc);
    for (i, answer) in answers.iter().enumerate() {
        let number = i.saturating_add(1);
        match answer {
            Some(v) => text.push_str(format!(in alloc; "q 1 {number} 1 = {v}\n")?.as_str())?,
            None => text.push_str(format!(in alloc; "q 1 {number} 1 absent\n")?.as_str())?,
        }
    }
    Ok(text)
}

const ANSWERS: [Option<u64>; 3] = [None, Some(5), Some(6)];

// The verdict, by what is wrong with the replies, with the answers and with the pairs.
fn first_that_applies(
    alloc: Global,
    wrong_reply: Option<String>,
    placed: &str,
    wrong_pair: Option<String>,
) -> Result<String, AllocError> {
    if let Some(text) = wrong_reply {
        return Ok(text);
    }
    if placed.starts_with("Legal") {
        if let Some(text) = wrong_pair {
            return Ok(text);
        }
    }
    String::from_str(alloc, placed)
}

// Compares both judges on all reports with so many answers, to queries behind these waits, and where there are as many
// answers as queries with each flaw too. A line `hold 1 1` stands after `held` updates.
fn compare(
    alloc: Global,
    script: &Small,
    held: Option<usize>,
    waits: &[usize],
    answer_count: usize,
) -> Result<Option<String>, Fail> {
    let count = script.replies.len();
    let (queries, bounds) = waiting_queries(alloc, waits, held, count)?;
    let line = held.map(|after| after.saturating_add(1) as u64);
    for chosen in all_lists(alloc, 3, answer_count)?.iter() {
        let mut answers = Vec::new(alloc);
        for at in chosen.iter() {
            answers.push(ANSWERS.get(*at).copied().unwrap_or(None))?;
        }
        let asked = answer_lines(alloc, answers.as_slice())?;
        let values = script.values.as_slice();
        let placed = searched_verdict(alloc, values, bounds.as_slice(), answers.as_slice())?;
        let flaws = if answer_count == waits.len() {
            FLAWS.as_slice()
        } else {
            &FLAWS[..1]
        };
        for flaw in flaws {
            let flaw = *flaw;
            let (replies, wrong_reply) = flawed_replies(alloc, script.replies.as_slice(), flaw)?;
            let last = values.last().copied().unwrap_or(None);
            let (pairs, wrong_pair) = flawed_pairs(alloc, last, flaw)?;
            let report = format!(in alloc; "{replies}{asked}{pairs}end\n")?;
            let found = verdict_text(
                alloc,
                script.updates.as_bytes(),
                line,
                queries.as_bytes(),
                report.as_bytes(),
            )?;
            let right = first_that_applies(alloc, wrong_reply, placed.as_str(), wrong_pair)?;
            if found.as_str() != right.as_str() {
                return Ok(Some(format!(in alloc; "{found}, and not {right}, of {report}")?));
            }
        }
    }
    Ok(None)
}

// All update files of at most two lines, each without a `hold` and with one before each update, all query files of at most
// two queries with all waits, and all reports of at most three answers.
#[test]
fn agrees_with_a_search_over_all_places(rt: HostRuntime) -> Result<(), Fail> {
    let alloc = rt.alloc();
    for count in 0..3 {
        for chosen in all_lists(alloc, UPDATES.len(), count)?.iter() {
            let script = make_small(alloc, chosen.as_slice())?;
            for query_count in 0..3 {
                for waits in all_lists(alloc, count.saturating_add(1), query_count)?.iter() {
                    for holds in 0..count.saturating_add(1) {
                        let held = holds.checked_sub(1);
                        if held.is_none() || query_count > 0 {
                            for answer_count in 0..4 {
                                let different = compare(
                                    alloc,
                                    &script,
                                    held,
                                    waits.as_slice(),
                                    answer_count,
                                )?;
                                assert_eq!(rt; different, None);
                            }
                        }
                    }
                }
            }
        }
    }
    Ok(())
}
