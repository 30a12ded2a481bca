//! A list's report that goes to a sink piece by piece.
ghost use Rattle.std.specs.Prelude.{◌≡◌, ◌≤◌, ◌++◌, map, OnOk, OnErr, IfErr};
ghost use Rattle.ck_io.specs.Sink.{appended, AppendsPrefix};
ghost use Rattle.ck_report.specs.Numbered.{files_text};
ghost use Rattle.ck_report.specs.ListText.{view_line, list_text};
ghost use Rattle.ck_report.specs.Streaming.{IsStreamed, IsPutCause};

use crate::lines::{EditReplies, Members, Views};
use crate::put::{PutError, ROOM, put_end, put_lines};
use crate::tasks::Tasks;
use crate::view::View;
use ck_history::EditReply;
use ck_io::Sink;
use std::alloc::Global;
use std::thread::Threads;

/// Puts a list's report: the replies, the answers of each query file, and the committed members at the end, as `put_report`
/// puts a map's.
pub fn put_list_report<R: Threads + Sync, S: Sink>(
    rt: &R,
    alloc: Global,
    tasks: u8,
    sink: &mut S,
    replies: &[EditReply],
    answers: &[Vec<View>],
    members: &[u64],
) -> Result<(), PutError>
    ensures all { OnOk result (S.taken sink.new ≡ appended (S.taken sink.old) (list_text replies.now (map (λ file. file.items) answers.now) members.now)) }
    ensures prefix { OnErr result (AppendsPrefix (S.taken sink.old) (S.taken sink.new) (list_text replies.now (map (λ file. file.items) answers.now) members.now)) }
    ensures cause { IfErr result (λ error. IsPutCause error (S.faults sink.old) (S.faults sink.new)) }
    ensures lasting { S.faults sink.old ≤ S.faults sink.new }
{
    let mut buffer = Vec::with_capacity(alloc, ROOM)?;
    let tasks = Tasks {
        rt,
        alloc,
        count: tasks,
    };
    put_lines(&tasks, sink, &mut buffer, &EditReplies, replies)?;
    put_views(&tasks, sink, &mut buffer, answers)?;
    put_lines(&tasks, sink, &mut buffer, &Members, members)?;
    put_end(sink, &mut buffer)
}

// The lines of the answers of each file.
fn put_views<R: Threads + Sync, S: Sink>(
    tasks: &Tasks<R>,
    sink: &mut S,
    buffer: &mut Vec<u8>,
    answers: &[Vec<View>],
) -> Result<(), PutError>
    ensures ok { OnOk result (IsStreamed (S.taken sink.old) (S.taken sink.new) (buffer.old.items ++ files_text view_line 1 (map (λ file. file.items) answers.now)) buffer.new.items) }
    ensures err { OnErr result (AppendsPrefix (S.taken sink.old) (S.taken sink.new) (buffer.old.items ++ files_text view_line 1 (map (λ file. file.items) answers.now))) }
    ensures cause { IfErr result (λ error. IsPutCause error (S.faults sink.old) (S.faults sink.new)) }
    ensures lasting { S.faults sink.old ≤ S.faults sink.new }
{
    for i in 0..answers.len() {
        put_lines(
            tasks,
            sink,
            buffer,
            &Views { file: i as u64 + 1 },
            &answers[i],
        )?;
    }
    Ok(())
}
