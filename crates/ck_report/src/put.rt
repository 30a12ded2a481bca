//! Reports that go to a sink piece by piece, from one buffer.
ghost use Rattle.std.specs.Prelude.{◌≡◌, ◌≤◌, ◌++◌, ◌∷◌, [], map, length, take, drop, codes, OnOk, OnErr, IfOk, IfErr};
ghost use Rattle.ck_io.specs.Faults.{Rose};
ghost use Rattle.ck_io.specs.Sink.{appended, AppendsPrefix};
ghost use Rattle.ck_report.specs.declared.put.PutError.TheVariants.{Failed, Memory};
ghost use Rattle.ck_report.specs.Text.{report_text, reply_lines, answer_lines, file_lines, pair_lines};
ghost use Rattle.ck_report.specs.Numbered.{numbered};
ghost use Rattle.ck_report.specs.Pairing.{asked_lines, asked_of_files};
ghost use Rattle.ck_script.specs.Script.{said_of};
ghost use Rattle.ck_report.specs.Streaming.{IsStreamed, IsPutCause};

use crate::lines::{Answers, LinePrinter, Pairs, Replies};
use crate::pairing::pair_block;
use crate::tasks::Tasks;
use ck_history::Reply;
use ck_io::{Sink, SinkFailed, put_all};
use ck_script::{AskLine, KeyWord, LineList};
use std::alloc::{AllocError, Global};
use std::thread::Threads;

/// Why a report wasn't put whole.
#[derive(Clone, Copy, PartialEq, Eq, Debug)]
pub enum PutError {
    /// The sink failed.
    Failed,
    /// There was no memory.
    Memory,
}

impl From<SinkFailed> for PutError {
    ghost from_gives = { λ _ error. error ≡ Failed };

    fn from(_: SinkFailed) -> PutError {
        PutError::Failed
    }
}

impl From<AllocError> for PutError {
    ghost from_gives = { λ _ error. error ≡ Memory };

    fn from(_: AllocError) -> PutError {
        PutError::Memory
    }
}

/// How many bytes a put is offered, where the report has more.
const PIECE: usize = 65536;

/// From this length on the buffer's whole pieces are put. At least one is, and what is left to move to the front is less
/// than one, so fewer bytes are moved than put.
const FULL: usize = 2 * PIECE;

/// How many bytes the buffer has room for where one task prints: 64 lines at a time, of which none is longer than 128
/// bytes in a table's report.
pub const ROOM: usize = FULL + 64 * 128;

/// Puts a report: the replies, the answers to the queries of each query file, and the pairs at the end. It offers to each put all that is
/// left, or the next 65,536 bytes where more is left. Where it fails, the sink took a prefix of the report. Up to `tasks`
/// tasks print the lines of a part that has many; what is put doesn't hang on how many.
pub fn put_report<R: Threads + Sync, S: Sink, K: KeyWord + Sync, F: LineList<AskLine<K>>>(
    rt: &R,
    alloc: Global,
    tasks: u8,
    sink: &mut S,
    replies: &[Reply],
    asks: &[F],
    answers: &[Vec<Option<u64>>],
    pairs: &[(K, u64)],
) -> Result<(), PutError>
    requires { length asks.now ≡ length answers.now }
    ensures all { OnOk result (S.taken sink.new ≡ appended (S.taken sink.old) (report_text K.spelling replies.now (asked_of_files (map said_of (map F.items asks.now)) (map (λ file. file.items) answers.now)) pairs.now)) }
    ensures prefix { OnErr result (AppendsPrefix (S.taken sink.old) (S.taken sink.new) (report_text K.spelling replies.now (asked_of_files (map said_of (map F.items asks.now)) (map (λ file. file.items) answers.now)) pairs.now)) }
    ensures cause { IfErr result (λ error. IsPutCause error (S.faults sink.old) (S.faults sink.new)) }
    ensures lasting { S.faults sink.old ≤ S.faults sink.new }
{
    let mut buffer = Vec::with_capacity(alloc, ROOM)?;
    let tasks = Tasks {
        rt,
        alloc,
        count: tasks,
    };
    put_replies(&tasks, sink, &mut buffer, replies)?;
    put_files(&tasks, sink, &mut buffer, asks, answers)?;
    put_pairs(&tasks, sink, &mut buffer, pairs)?;
    put_end(sink, &mut buffer)
}

// Puts the buffer's whole pieces where it is full.
fn put_full<S: Sink>(sink: &mut S, buffer: &mut Vec<u8>) -> Result<(), SinkFailed>
    ensures ok { OnOk result (IsStreamed (S.taken sink.old) (S.taken sink.new) buffer.old.items buffer.new.items) }
    ensures err { OnErr result (AppendsPrefix (S.taken sink.old) (S.taken sink.new) buffer.old.items) }
    ensures cause { OnErr result (Rose (S.faults sink.old) (S.faults sink.new)) }
    ensures lasting { S.faults sink.old ≤ S.faults sink.new }
{
    if buffer.len() >= FULL {
        let done = put_pieces(sink, buffer)?;
        drop_first(buffer, done);
    }
    Ok(())
}

// Puts a text as long as a whole piece of it is left: how many bytes were taken. A sink that takes a part of a piece is
// offered a whole one again, so what a put is offered doesn't rest on what this buffer holds.
fn put_pieces<S: Sink>(sink: &mut S, text: &[u8]) -> Result<usize, SinkFailed>
    ensures ok { IfOk result (λ done. S.taken sink.new ≡ appended (S.taken sink.old) (take done text.now)) }
    ensures within { IfOk result (λ done. done ≤ length text.now) }
    ensures err { OnErr result (AppendsPrefix (S.taken sink.old) (S.taken sink.new) text.now) }
    ensures cause { OnErr result (Rose (S.faults sink.old) (S.faults sink.new)) }
    ensures lasting { S.faults sink.old ≤ S.faults sink.new }
{
    let mut done = 0;
    while text.len() - done >= PIECE {
        done += sink.put(&text[done..done + PIECE])? as usize;
    }
    Ok(done)
}

// Leaves the first bytes out.
fn drop_first(buffer: &mut Vec<u8>, count: usize)
    requires { count ≤ length buffer.old.items }
    ensures { buffer.new.items ≡ drop count buffer.old.items }
{
    let rest = buffer.len() - count;
    buffer.copy_within(count.., 0);
    buffer.truncate(rest);
}

/// Puts the last line, and all that is still to be put before it.
pub fn put_end<S: Sink>(sink: &mut S, buffer: &mut Vec<u8>) -> Result<(), PutError>
    ensures ok { OnOk result (S.taken sink.new ≡ appended (S.taken sink.old) (buffer.old.items ++ codes "end\n")) }
    ensures err { OnErr result (AppendsPrefix (S.taken sink.old) (S.taken sink.new) (buffer.old.items ++ codes "end\n")) }
    ensures cause { IfErr result (λ error. IsPutCause error (S.faults sink.old) (S.faults sink.new)) }
    ensures lasting { S.faults sink.old ≤ S.faults sink.new }
{
    buffer.extend_from_slice(b"end\n")?;
    put_all(sink, buffer)?;
    Ok(())
}

// The lines of the replies.
fn put_replies<R: Threads + Sync, S: Sink>(
    tasks: &Tasks<R>,
    sink: &mut S,
    buffer: &mut Vec<u8>,
    replies: &[Reply],
) -> Result<(), PutError>
    ensures ok { OnOk result (IsStreamed (S.taken sink.old) (S.taken sink.new) (buffer.old.items ++ reply_lines 1 replies.now) buffer.new.items) }
    ensures err { OnErr result (AppendsPrefix (S.taken sink.old) (S.taken sink.new) (buffer.old.items ++ reply_lines 1 replies.now)) }
    ensures cause { IfErr result (λ error. IsPutCause error (S.faults sink.old) (S.faults sink.new)) }
    ensures lasting { S.faults sink.old ≤ S.faults sink.new }
{
    put_lines(tasks, sink, buffer, &Replies, replies)
}

// The lines of the answers of each file.
fn put_files<R: Threads + Sync, S: Sink, K: KeyWord + Sync, F: LineList<AskLine<K>>>(
    tasks: &Tasks<R>,
    sink: &mut S,
    buffer: &mut Vec<u8>,
    asks: &[F],
    answers: &[Vec<Option<u64>>],
) -> Result<(), PutError>
    requires { length asks.now ≡ length answers.now }
    ensures ok { OnOk result (IsStreamed (S.taken sink.old) (S.taken sink.new) (buffer.old.items ++ file_lines K.spelling 1 (asked_of_files (map said_of (map F.items asks.now)) (map (λ file. file.items) answers.now))) buffer.new.items) }
    ensures err { OnErr result (AppendsPrefix (S.taken sink.old) (S.taken sink.new) (buffer.old.items ++ file_lines K.spelling 1 (asked_of_files (map said_of (map F.items asks.now)) (map (λ file. file.items) answers.now)))) }
    ensures cause { IfErr result (λ error. IsPutCause error (S.faults sink.old) (S.faults sink.new)) }
    ensures lasting { S.faults sink.old ≤ S.faults sink.new }
{
    for i in 0..asks.len() {
        put_answers(tasks, sink, buffer, i as u64 + 1, &asks[i], &answers[i])?;
    }
    Ok(())
}

// The lines of the answers of one file, put round by round. What was asked is put beside its answer for one round alone, so
// that no second list of all keys is made.
fn put_answers<R: Threads + Sync, S: Sink, K: KeyWord + Sync, F: LineList<AskLine<K>>>(
    tasks: &Tasks<R>,
    sink: &mut S,
    buffer: &mut Vec<u8>,
    f: u64,
    lines: &F,
    answers: &[Option<u64>],
) -> Result<(), PutError>
    ensures ok { OnOk result (IsStreamed (S.taken sink.old) (S.taken sink.new) (buffer.old.items ++ answer_lines K.spelling f 1 (asked_lines (said_of (F.items lines.now)) answers.now)) buffer.new.items) }
    ensures err { OnErr result (AppendsPrefix (S.taken sink.old) (S.taken sink.new) (buffer.old.items ++ answer_lines K.spelling f 1 (asked_lines (said_of (F.items lines.now)) answers.now))) }
    ensures cause { IfErr result (λ error. IsPutCause error (S.faults sink.old) (S.faults sink.new)) }
    ensures lasting { S.faults sink.old ≤ S.faults sink.new }
{
    let mut block = Vec::new(tasks.alloc);
    let mut start = 0;
    let mut left = answers;
    let mut before: u64 = 0;
    while start < lines.len() {
        block.clear();
        let end = start + tasks.round(lines.len() - start);
        let given = pair_block(&mut block, lines, start, end, left)?;
        tasks.print_lines(buffer, &Answers { file: f }, before, &block)?;
        put_full(sink, buffer)?;
        before += block.len() as u64;
        start = end;
        left = left.split_at(given).1;
    }
    Ok(())
}

// The lines of the pairs.
fn put_pairs<R: Threads + Sync, S: Sink, K: KeyWord + Sync>(
    tasks: &Tasks<R>,
    sink: &mut S,
    buffer: &mut Vec<u8>,
    pairs: &[(K, u64)],
) -> Result<(), PutError>
    ensures ok { OnOk result (IsStreamed (S.taken sink.old) (S.taken sink.new) (buffer.old.items ++ pair_lines K.spelling pairs.now) buffer.new.items) }
    ensures err { OnErr result (AppendsPrefix (S.taken sink.old) (S.taken sink.new) (buffer.old.items ++ pair_lines K.spelling pairs.now)) }
    ensures cause { IfErr result (λ error. IsPutCause error (S.faults sink.old) (S.faults sink.new)) }
    ensures lasting { S.faults sink.old ≤ S.faults sink.new }
{
    put_lines(tasks, sink, buffer, &Pairs, pairs)
}

/// Puts the lines of some items, round by round.
pub fn put_lines<R: Threads + Sync, S: Sink, T: Sync, P: LinePrinter<T> + Sync>(
    tasks: &Tasks<R>,
    sink: &mut S,
    buffer: &mut Vec<u8>,
    printer: &P,
    items: &[T],
) -> Result<(), PutError>
    ensures ok { OnOk result (IsStreamed (S.taken sink.old) (S.taken sink.new) (buffer.old.items ++ numbered (P.line printer.now) 0 items.now) buffer.new.items) }
    ensures err { OnErr result (AppendsPrefix (S.taken sink.old) (S.taken sink.new) (buffer.old.items ++ numbered (P.line printer.now) 0 items.now)) }
    ensures cause { IfErr result (λ error. IsPutCause error (S.faults sink.old) (S.faults sink.new)) }
    ensures lasting { S.faults sink.old ≤ S.faults sink.new }
{
    let mut rest = items;
    let mut before: u64 = 0;
    while !rest.is_empty() {
        let count = tasks.round(rest.len());
        let (now, later) = rest.split_at(count);
        tasks.print_lines(buffer, printer, before, now)?;
        put_full(sink, buffer)?;
        before += count as u64;
        rest = later;
    }
    Ok(())
}
