ghost use Rattle.std.specs.Prelude.{◌≡◌, ◌<◌, ◌≤◌, ◌^◌, ◌+◌, [], ◌∷◌, ◌++◌, IfOk, OnOk, OnErr, map, length, drop, codes, decimal};
ghost use Rattle.ck_report.specs.Text.{report_text, reply_words, reply_lines, answer_lines, file_lines, found_words, pair_lines};
ghost use Rattle.ck_text.specs.Words.{line};
ghost use Rattle.ck_report.specs.Tails.{value_tail, reply_tail, found_tail};

use crate::asked::Asked;
use ck_history::Reply;
use ck_script::KeyWord;
use ck_text::{prepend_bytes, prepend_number};
use std::alloc::{AllocError, Global};

/// The text of a report: the replies, the answers of each query file, and the pairs at the end.
pub fn report_map<K: KeyWord>(
    alloc: Global,
    replies: &[Reply],
    answers: &[Vec<Asked<K>>],
    pairs: &[(K, u64)],
) -> Result<Vec<u8>, AllocError>
    ensures { IfOk result (λ text. text.items ≡ report_text K.spelling replies.now (map (λ file. file.items) answers.now) pairs.now) }
{
    let mut out = Vec::new(alloc);
    print_replies(&mut out, replies)?;
    print_files(&mut out, answers)?;
    print_pairs(&mut out, pairs)?;
    out.extend_from_slice(b"end\n")?;
    Ok(out)
}

// The lines of the replies.
fn print_replies(out: &mut Vec<u8>, replies: &[Reply]) -> Result<(), AllocError>
    ensures { OnOk result (out.new.items ≡ out.old.items ++ reply_lines 1 replies.now) }
{
    let mut i: u64 = 0;
    for reply in replies {
        i += 1;
        print_reply(out, i, reply)?;
    }
    Ok(())
}

/// Appends the line of one reply.
pub fn print_reply(out: &mut Vec<u8>, i: u64, reply: &Reply) -> Result<(), AllocError>
    ensures { OnOk result (out.new.items ≡ out.old.items ++ line (codes "u" ∷ decimal i ∷ reply_words reply.now)) }
{
    let mut text = [0u8; 48];
    let end = prepend_reply(&mut text, reply);
    let first = prepend_number(&mut text, end, i);
    let start = prepend_bytes(&mut text, first, b"u ");
    append_from(out, &text, start)
}

// Appends what stands from an index on.
#[inline(always)]
fn append_from(out: &mut Vec<u8>, text: &[u8], start: usize) -> Result<(), AllocError>
    requires { start ≤ length text.now }
    ensures { OnOk result (out.new.items ≡ out.old.items ++ drop start text.now) }
{
    out.extend_from_slice(text.split_at(start).1)
}

// Writes what stands after a reply's number, at the end of a text.
#[inline(always)]
fn prepend_reply(text: &mut [u8], reply: &Reply) -> usize
    requires { length text.old ≡ 48 }
    ensures room { 22 ≤ result }
    ensures within { result ≤ 48 }
    ensures written { drop result text.new ≡ reply_tail reply.now (drop 48 text.old) }
{
    match *reply {
        Reply::Fresh => prepend_bytes(text, 48, b" fresh\n"),
        Reply::Was(v) => prepend_value(text, 48, b" was ", v),
        Reply::Has(v) => prepend_value(text, 48, b" has ", v),
        Reply::Missing => prepend_bytes(text, 48, b" missing\n"),
        Reply::Tidied => prepend_bytes(text, 48, b" tidied\n"),
        Reply::Full => prepend_bytes(text, 48, b" full\n"),
    }
}

// Writes a value between words and the end of its line, so that the line ends at `end`.
#[inline(always)]
fn prepend_value(text: &mut [u8], end: usize, before: &[u8], v: u64) -> usize
    requires room { length before.now + 21 ≤ end }
    requires within { end ≤ length text.old }
    ensures short { end ≤ result + (length before.now + 21) }
    ensures within { result ≤ end }
    ensures written { drop result text.new ≡ value_tail before.now v (drop end text.old) }
{
    let last = prepend_bytes(text, end, b"\n");
    let number = prepend_number(text, last, v);
    prepend_bytes(text, number, before)
}

// The lines of the answers of each file.
fn print_files<K: KeyWord>(out: &mut Vec<u8>, files: &[Vec<Asked<K>>]) -> Result<(), AllocError>
    ensures { OnOk result (out.new.items ≡ out.old.items ++ file_lines K.spelling 1 (map (λ file. file.items) files.now)) }
{
    let mut f: u64 = 0;
    for answers in files {
        f += 1;
        print_answers(out, f, answers)?;
    }
    Ok(())
}

// The lines of the answers of one file.
fn print_answers<K: KeyWord>(
    out: &mut Vec<u8>,
    f: u64,
    answers: &[Asked<K>],
) -> Result<(), AllocError>
    ensures { OnOk result (out.new.items ≡ out.old.items ++ answer_lines K.spelling f 1 answers.now) }
{
    let mut i: u64 = 0;
    for answer in answers {
        i += 1;
        print_answer(out, f, i, answer)?;
    }
    Ok(())
}

/// Appends the line of one answer.
pub fn print_answer<K: KeyWord>(
    out: &mut Vec<u8>,
    f: u64,
    i: u64,
    answer: &Asked<K>,
) -> Result<(), AllocError>
    ensures { OnOk result (out.new.items ≡ out.old.items ++ line (codes "q" ∷ decimal f ∷ decimal i ∷ K.spelling answer.now.key ∷ found_words answer.now.found)) }
{
    let mut text = [0u8; 128];
    let tail = prepend_found(&mut text, answer.found);
    let key = answer.key.prepend_word(&mut text, tail);
    let space = prepend_bytes(&mut text, key, b" ");
    let number = prepend_number(&mut text, space, i);
    let file = prepend_bytes(&mut text, number, b" ");
    let first = prepend_number(&mut text, file, f);
    let start = prepend_bytes(&mut text, first, b"q ");
    append_from(out, &text, start)
}

// Writes what stands after an answer's key, at the end of a text.
#[inline(always)]
fn prepend_found(text: &mut [u8], found: Option<u64>) -> usize
    requires { length text.old ≡ 128 }
    ensures room { 104 ≤ result }
    ensures within { result ≤ 128 }
    ensures written { drop result text.new ≡ found_tail found (drop 128 text.old) }
{
    match found {
        Some(v) => prepend_value(text, 128, b" = ", v),
        None => prepend_bytes(text, 128, b" absent\n"),
    }
}

// The lines of the pairs.
fn print_pairs<K: KeyWord>(out: &mut Vec<u8>, pairs: &[(K, u64)]) -> Result<(), AllocError>
    ensures { OnOk result (out.new.items ≡ out.old.items ++ pair_lines K.spelling pairs.now) }
{
    for pair in pairs {
        print_pair(out, &pair.0, pair.1)?;
    }
    Ok(())
}

/// Appends the line of one pair.
pub fn print_pair<K: KeyWord>(out: &mut Vec<u8>, key: &K, value: u64) -> Result<(), AllocError>
    ensures { OnOk result (out.new.items ≡ out.old.items ++ line (codes "t" ∷ K.spelling key.now ∷ codes "=" ∷ decimal value ∷ [])) }
{
    let mut text = [0u8; 80];
    let tail = prepend_value(&mut text, 80, b" = ", value);
    let word = key.prepend_word(&mut text, tail);
    let start = prepend_bytes(&mut text, word, b"t ");
    append_from(out, &text, start)
}
