//! The summary of a run.
ghost use Rattle.std.specs.Prelude.{◌≡◌, ◌≤◌, ◌++◌, ◌∷◌, [], IfOk, OnOk, decimal, length};
ghost use Rattle.std.specs.List.{filter};
ghost use Rattle.ck_text.specs.Words.{line};
ghost use Rattle.ck_gen.specs.Summaries.{is_of_kind, is_found, summary_of, summary_lines, sum_from};

use ck_history::{Key, Reply};
use ck_probe::{key_code, mix};
use ck_text::print_number;
use std::alloc::{AllocError, Global};

/// What a run of generated files came to.
#[derive(Clone, Copy, PartialEq, Eq, Debug)]
pub struct Summary {
    /// How many updates were made.
    pub lines: u64,
    /// How many of them added a pair.
    pub fresh: u64,
    /// How many replaced a value or took a pair out.
    pub was: u64,
    /// How many found the key, and changed nothing.
    pub has: u64,
    /// How many were to take a pair out and found none.
    pub missing: u64,
    /// How many queries found their key.
    pub found: u64,
    /// How many queries didn't.
    pub absent: u64,
    /// How many pairs there are at the end.
    pub keys: u64,
    /// A hash of these pairs, by ascending key.
    pub sum: u64,
}

impl Summary {
    /// The summary of a run with these replies and answers, and with these pairs at its end.
    pub fn new(replies: &[Reply], answers: &[Option<u64>], pairs: &[(Key, u64)]) -> Summary
        ensures { result ≡ summary_of replies.now answers.now pairs.now }
    {
        Summary {
            lines: replies.len() as u64,
            fresh: count_replies(replies, ReplyKind::Fresh),
            was: count_replies(replies, ReplyKind::Was),
            has: count_replies(replies, ReplyKind::Has),
            missing: count_replies(replies, ReplyKind::Missing),
            found: count_found(answers),
            absent: answers.len() as u64 - count_found(answers),
            keys: pairs.len() as u64,
            sum: sum_of(pairs),
        }
    }
}

// The kinds of replies that a summary counts.
#[derive(Clone, Copy)]
enum ReplyKind {
    Fresh,
    Was,
    Has,
    Missing,
}

// How many replies are of this kind.
fn count_replies(replies: &[Reply], kind: ReplyKind) -> u64
    ensures { result ≡ length (filter (is_of_kind kind) replies.now) }
{
    replies
        .iter()
        .filter(|reply| is_of_kind(kind, reply))
        .count() as u64
}

// Whether a reply is of this kind.
fn is_of_kind(kind: ReplyKind, reply: &Reply) -> bool
    ensures { result ≡ is_of_kind kind reply.now }
{
    match kind {
        ReplyKind::Fresh => matches!(reply, Reply::Fresh),
        ReplyKind::Was => matches!(reply, Reply::Was(_)),
        ReplyKind::Has => matches!(reply, Reply::Has(_)),
        ReplyKind::Missing => matches!(reply, Reply::Missing),
    }
}

// How many answers are a value.
fn count_found(answers: &[Option<u64>]) -> u64
    ensures count { result ≡ length (filter is_found answers.now) }
    ensures within { result ≤ length answers.now }
{
    answers.iter().filter(|answer| answer.is_some()).count() as u64
}

// A hash of the pairs in their order.
fn sum_of(pairs: &[(Key, u64)]) -> u64
    ensures { result ≡ sum_from 0 pairs.now }
{
    let mut sum = 0;
    for (key, value) in pairs {
        let n = key.get();
        let low = (n % (1 << 64)) as u64;
        let high = (n >> 64) as u64;
        sum = mix(*value, key_code(low, high, sum));
    }
    sum
}

/// The text of a summary: ten lines, each with its line feed.
pub fn summary_text(alloc: Global, s: &Summary) -> Result<Vec<u8>, AllocError>
    ensures { IfOk result (λ text. text.items ≡ summary_lines s.now) }
{
    let mut out = Vec::new(alloc);
    print_count(&mut out, "made", s.lines)?;
    print_count(&mut out, "fresh", s.fresh)?;
    print_count(&mut out, "was", s.was)?;
    print_count(&mut out, "has", s.has)?;
    print_count(&mut out, "missing", s.missing)?;
    print_count(&mut out, "found", s.found)?;
    print_count(&mut out, "absent", s.absent)?;
    print_count(&mut out, "keys", s.keys)?;
    print_count(&mut out, "sum", s.sum)?;
    out.extend_from_slice(b"end\n")?;
    Ok(out)
}

// A count behind its name.
fn print_count(out: &mut Vec<u8>, name: &str, count: u64) -> Result<(), AllocError>
    ensures { OnOk result (out.new.items ≡ out.old.items ++ line (name.now ∷ decimal count ∷ [])) }
{
    out.extend_from_slice(name.as_bytes())?;
    out.push(b' ')?;
    print_number(out, count as u128)?;
    out.push(b'\n')?;
    Ok(())
}
