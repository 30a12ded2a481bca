//! One writer and two readers, each in a thread. What the readers were answered is judged by the plain lists after the join.
ghost use Rattle.std.specs.Prelude.{◌≡◌, ◌+◌, ◌*◌, ◌<◌, ◌≤◌, ◌^◌, IfOk};
ghost use Rattle.ck_run.specs.Tokens.{table};
ghost use Rattle.ck_epoch.specs.Lists.{Answers};
ghost use Rattle.ck_epoch.specs.State.{depth};
ghost use Rattle.ck_signal.specs.Signals.{readers};
ghost use Rattle.ck_arraylaw.specs.Client.{is_region, home_of};
ghost use Rattle.ck_array.specs.Ends.{IsPassReady};

use crate::tests::members;
use crate::{Array, ArrayPass, ArrayWriter, home};
use ck_epoch::{Closed, Item};
use ck_history::{Busy, Edit, EditReply, Lists};
use ck_words::Back;
use crossbeam_utils::Backoff;
use std::alloc::{AllocError, Global};
use std::sync::Wait;
use std::test::Fail;
use std::thread::{Threads, join_mut};

// The writer makes its edits in stretches of so many, each third one a commit, and marks after each stretch.
const STRETCH: u64 = 48;

const STRETCHES: u64 = 48;

const EDITS: u64 = STRETCH * STRETCHES;

// So many edits add members, and so many take them out again, in turn. A list has at most two thirds as many members.
const WAVE: u64 = 120;

// A reader gives at most so many answers from one mark to the next.
const ANSWERS: u64 = 256;

// An answer, and how many edits `reached` had told before.
#[derive(Drop)]
struct Answer {
    members: Vec<u64>,
    least: u64,
}

#[derive(Drop)]
struct Reader {
    pass: ArrayPass,
    answers: Vec<Answer>,
}

// Each reader had given so many answers when the log had so many edits, as `answered` told.
#[derive(Drop)]
struct Told {
    answers: [u64; 2],
    edits: u64,
}

// What the writer was answered and told, and how many regions `barrier` gave back.
#[derive(Drop)]
struct Written {
    replies: Vec<Result<EditReply, Busy>>,
    told: Vec<Told>,
    regions: u64,
}

// No member is added twice.
fn nth_edit(i: u64) -> Edit
    requires { i < 2 ^ 32 }
{
    if i % 3 == 2 {
        Edit::Commit
    } else if i % (2 * WAVE) < WAVE {
        Edit::Add(i)
    } else {
        Edit::Drop(i.saturating_sub(WAVE))
    }
}

// Reads the list in a section of its own, and tells the writer.
fn read_once(
    alloc: Global,
    array: &Array,
    reader: &mut Reader,
    least: u64,
) -> Result<(), AllocError>
    requires table { table reader.old.pass.token ≡ array.now }
    requires ready { IsPassReady array.now.origin reader.old.pass }
    requires outside { depth reader.old.pass.token ≡ 0 }
    requires calls { reader.old.pass.calls + 3 < 2 ^ 40 }
    ensures table { table reader.new.pass.token ≡ table reader.old.pass.token }
    ensures ready { IsPassReady array.now.origin reader.new.pass }
    ensures outside { depth reader.new.pass.token ≡ 0 }
    ensures calls { reader.new.pass.calls ≤ reader.old.pass.calls + 3 }
{
    array.begin(&mut reader.pass);
    let read = members(alloc, array, &mut reader.pass);
    array.end(&mut reader.pass);
    array.note(&mut reader.pass);
    let members = read?.clone()?;
    reader.answers.push(Answer { members, least })?;
    Ok(())
}

// Reads again and again until the next mark. After so many answers it only waits.
fn read_stretch(
    alloc: Global,
    array: &Array,
    reader: &mut Reader,
    marked: u64,
) -> Result<(), AllocError>
    requires marked { marked < 2 ^ 32 }
    requires table { table reader.old.pass.token ≡ array.now }
    requires ready { IsPassReady array.now.origin reader.old.pass }
    requires outside { depth reader.old.pass.token ≡ 0 }
    requires calls { reader.old.pass.calls < 2 ^ 39 }
    ensures table { table reader.new.pass.token ≡ table reader.old.pass.token }
    ensures ready { IsPassReady array.now.origin reader.new.pass }
    ensures outside { depth reader.new.pass.token ≡ 0 }
    ensures calls { reader.new.pass.calls ≤ reader.old.pass.calls + 2 ^ 32 }
{
    let backoff = Backoff::new();
    for n in 0..(1u64 << 30) {
        if array.reached(&mut reader.pass, marked + STRETCH).is_ok() {
            return Ok(());
        }
        if n < ANSWERS {
            read_once(alloc, array, reader, marked)?;
        } else {
            backoff.snooze();
        }
    }
    Ok(())
}

// A reader's part.
fn read(alloc: Global, array: &Array, reader: &mut Reader) -> Result<(), AllocError>
    requires table { table reader.old.pass.token ≡ array.now }
    requires ready { IsPassReady array.now.origin reader.old.pass }
    requires outside { depth reader.old.pass.token ≡ 0 }
    requires calls { reader.old.pass.calls ≡ 0 }
    ensures table { table reader.new.pass.token ≡ table reader.old.pass.token }
    ensures ready { IsPassReady array.now.origin reader.new.pass }
{
    for k in 0..STRETCHES {
        read_stretch(alloc, array, reader, STRETCH * k)?;
    }
    read_once(alloc, array, reader, EDITS)
}

// Two readers in two threads.
fn read_both<R: Threads + Wait + Sync>(
    rt: &R,
    alloc: Global,
    array: &Array,
    a: &mut Reader,
    b: &mut Reader,
) -> Result<(), AllocError>
    requires tables { (table a.old.pass.token ≡ array.now) × (table b.old.pass.token ≡ array.now) }
    requires ready { IsPassReady array.now.origin a.old.pass × IsPassReady array.now.origin b.old.pass }
    requires outside { (depth a.old.pass.token ≡ 0) × (depth b.old.pass.token ≡ 0) }
    requires calls { (a.old.pass.calls ≡ 0) × (b.old.pass.calls ≡ 0) }
    ensures tables { (table a.new.pass.token ≡ table a.old.pass.token) × (table b.new.pass.token ≡ table b.old.pass.token) }
    ensures ready { IsPassReady array.now.origin a.new.pass × IsPassReady array.now.origin b.new.pass }
{
    let (x, y) = join_mut(
        rt,
        &mut || read(alloc, array, a),
        &mut || read(alloc, array, b),
    );
    x?;
    y
}

// How many answers the reader has given, as soon as they are more than so many.
fn answered_beyond<F, R: Wait>(
    rt: &R,
    array: &Array,
    w: &mut ArrayWriter<F>,
    reader: u64,
    seen: u64,
) -> u64
    requires table { table w.old.writer.token ≡ array.now }
    requires reader { reader < readers array.now.origin }
    ensures table { table w.new.writer.token ≡ table w.old.writer.token }
    ensures handler { w.new.writer.handler ≡ w.old.writer.handler }
    ensures calls { w.new.writer.calls ≡ w.old.writer.calls }
{
    let backoff = Backoff::new();
    for _ in rt.forever() {
        let answers = array.answered(w, reader);
        if seen < answers {
            return answers;
        }
        backoff.snooze();
    }
    unreachable!()
}

// Makes the edits of one stretch.
fn write_stretch<F: Fn(Item) -> Back>(
    array: &Array,
    w: &mut ArrayWriter<F>,
    written: &mut Written,
    marked: u64,
) -> Result<(), AllocError>
    requires table { table w.old.writer.token ≡ array.now }
    requires marked { marked < 2 ^ 31 }
    requires calls { w.old.writer.calls < 2 ^ 31 }
    requires handler { Answers is_region home_of (F.pre w.old.writer.handler) (F.post w.old.writer.handler) }
    ensures table { table w.new.writer.token ≡ table w.old.writer.token }
    ensures handler { w.new.writer.handler ≡ w.old.writer.handler }
    ensures calls { w.new.writer.calls ≤ w.old.writer.calls + 3 * STRETCH }
{
    for i in 0..STRETCH {
        let reply = match nth_edit(marked + i) {
            Edit::Add(v) => Ok(array.add(w, v)),
            Edit::Drop(v) => Ok(array.drop_one(w, v)),
            Edit::Commit => array.commit(w),
        };
        written.replies.push(reply)?;
    }
    Ok(())
}

// Makes all edits. Before each stretch it waits until each reader has given an answer more than when the stretch before was marked.
fn write<F: Fn(Item) -> Back, R: Wait>(
    rt: &R,
    array: &Array,
    w: &mut ArrayWriter<F>,
    written: &mut Written,
) -> Result<(), AllocError>
    requires table { table w.old.writer.token ≡ array.now }
    requires readers { readers array.now.origin ≡ 2 }
    requires calls { w.old.writer.calls ≡ 0 }
    requires handler { Answers is_region home_of (F.pre w.old.writer.handler) (F.post w.old.writer.handler) }
    ensures table { table w.new.writer.token ≡ table w.old.writer.token }
{
    let mut seen = [0; 2];
    for k in 0..STRETCHES {
        let first = answered_beyond(rt, array, w, 0, seen[0]);
        let second = answered_beyond(rt, array, w, 1, seen[1]);
        written.told.push(Told {
            answers: [first, second],
            edits: STRETCH * k,
        })?;
        write_stretch(array, w, written, STRETCH * k)?;
        seen = [array.answered(w, 0), array.answered(w, 1)];
        array.mark(w);
        let given = array.barrier(rt, w);
        written.regions = written.regions.saturating_add(given);
    }
    Ok(())
}

// The writer in a thread, and the readers in two others.
fn work<F: Fn(Item) -> Back + Send + Sync, R: Threads + Wait + Sync>(
    rt: &R,
    alloc: Global,
    array: &Array,
    w: &mut ArrayWriter<F>,
    written: &mut Written,
    a: &mut Reader,
    b: &mut Reader,
) -> Result<(), AllocError>
    requires readers { readers array.now.origin ≡ 2 }
    requires writer { (table w.old.writer.token ≡ array.now) × (w.old.writer.calls ≡ 0) }
    requires handler { Answers is_region home_of (F.pre w.old.writer.handler) (F.post w.old.writer.handler) }
    requires tables { (table a.old.pass.token ≡ array.now) × (table b.old.pass.token ≡ array.now) }
    requires ready { IsPassReady array.now.origin a.old.pass × IsPassReady array.now.origin b.old.pass }
    requires outside { (depth a.old.pass.token ≡ 0) × (depth b.old.pass.token ≡ 0) }
    requires calls { (a.old.pass.calls ≡ 0) × (b.old.pass.calls ≡ 0) }
    ensures writer { table w.new.writer.token ≡ table w.old.writer.token }
    ensures tables { (table a.new.pass.token ≡ table a.old.pass.token) × (table b.new.pass.token ≡ table b.old.pass.token) }
    ensures ready { IsPassReady array.now.origin a.new.pass × IsPassReady array.now.origin b.new.pass }
{
    let (x, y) = join_mut(
        rt,
        &mut ||
            requires readers { readers array.now.origin ≡ 2 }
            requires writer { (table w.now.writer.token ≡ array.now) × (w.now.writer.calls ≡ 0) }
            requires handler { Answers is_region home_of (F.pre w.now.writer.handler) (F.post w.now.writer.handler) }
        { write(rt, array, w, written) },
        &mut ||
            requires tables { (table a.now.pass.token ≡ array.now) × (table b.now.pass.token ≡ array.now) }
            requires ready { IsPassReady array.now.origin a.now.pass × IsPassReady array.now.origin b.now.pass }
            requires outside { (depth a.now.pass.token ≡ 0) × (depth b.now.pass.token ≡ 0) }
            requires calls { (a.now.pass.calls ≡ 0) × (b.now.pass.calls ≡ 0) }
        { read_both(rt, alloc, array, a, b) },
    );
    x?;
    y
}

// The plain lists after all edits. None where one of the replies isn't theirs.
fn lists_after(
    alloc: Global,
    replies: &[Result<EditReply, Busy>],
) -> Result<Option<Lists>, AllocError> {
    let mut lists = Lists::new(alloc);
    for (i, reply) in replies.iter().enumerate() {
        if Ok(lists.apply(nth_edit(i as u64 % EDITS))?) != *reply {
            return Ok(None);
        }
    }
    Ok(Some(lists))
}

// The least place, from the present one on and from what `reached` told, at which the answer is the committed list. The lists go there.
fn place_of(lists: &mut Lists, place: u64, answer: &Answer) -> Result<Option<u64>, AllocError> {
    for at in place..=EDITS {
        if answer.least <= at && lists.committed() == answer.members.as_slice() {
            return Ok(Some(at));
        }
        lists.apply(nth_edit(at))?;
    }
    Ok(None)
}

// The greatest place that the reader's answer with this number may have, by what `answered` told.
fn greatest_place(told: &[Told], reader: usize, number: u64) -> u64
    requires { reader < 2 }
{
    for t in told {
        if number < t.answers[reader] {
            return t.edits;
        }
    }
    EDITS
}

// The number of the reader's first answer that can't have a place: places never fall, and bear out what `reached` and `answered` told.
fn first_misplaced(
    alloc: Global,
    told: &[Told],
    reader: usize,
    answers: &[Answer],
) -> Result<Option<usize>, AllocError>
    requires { reader < 2 }
{
    let mut lists = Lists::new(alloc);
    let mut place = 0;
    for (number, answer) in answers.iter().enumerate() {
        let greatest = greatest_place(told, reader, number as u64);
        match place_of(&mut lists, place, answer)? {
            Some(at) if at <= greatest => place = at,
            _ => return Ok(Some(number)),
        }
    }
    Ok(None)
}

// The list of the region whose place the first of these words is: the number of its members, and they.
fn list_in(words: &[u64]) -> Option<&[u64]> {
    let region = words.get(*words.first()? as usize..)?;
    let (count, members) = region.split_first()?;
    members.get(..*count as usize)
}

// An array with two readers, which have no answers.
fn two_readers<F: Fn(Item) -> Back + Drop>(
    alloc: Global,
    handler: F,
) -> Result<(Array, ArrayWriter<F>, Reader, Reader), AllocError>
    requires handler { Answers is_region home_of (F.pre handler) (F.post handler) }
    ensures writer { IfOk result (λ r. (table r.1.writer.token ≡ r.0) × (r.1.writer.calls ≡ 0) × (r.1.writer.handler ≡ handler)) }
    ensures readers { IfOk result (λ r. readers r.0.origin ≡ 2) }
    ensures tables { IfOk result (λ r. (table r.2.pass.token ≡ r.0) × (table r.3.pass.token ≡ r.0)) }
    ensures ready { IfOk result (λ r. IsPassReady r.0.origin r.2.pass × IsPassReady r.0.origin r.3.pass) }
    ensures outside { IfOk result (λ r. (depth r.2.pass.token ≡ 0) × (depth r.3.pass.token ≡ 0)) }
    ensures calls { IfOk result (λ r. (r.2.pass.calls ≡ 0) × (r.3.pass.calls ≡ 0)) }
{
    let (array, writer, mut passes) = Array::new(alloc, 2, handler)?;
    let second = passes.pop().unwrap();
    let first = passes.pop().unwrap();
    let a = Reader {
        pass: first,
        answers: Vec::new(alloc),
    };
    let b = Reader {
        pass: second,
        answers: Vec::new(alloc),
    };
    Ok((array, writer, a, b))
}

// The words of the array when both passes are given back.
fn close<F: Drop>(
    alloc: Global,
    array: Array,
    w: ArrayWriter<F>,
    first: ArrayPass,
    second: ArrayPass,
) -> Result<Closed, AllocError>
    requires writer { table w.writer.token ≡ array }
    requires tables { (table first.token ≡ array) × (table second.token ≡ array) }
    requires ready { IsPassReady array.origin first × IsPassReady array.origin second }
{
    let mut passes = Vec::with_capacity(alloc, 2)?;
    passes.push(first)?;
    passes.push(second)?;
    Ok(array.close(w, passes))
}

#[test]
fn each_answer_beside_the_writer_is_a_committed_list(rt: HostRuntime) -> Result<(), Fail> {
    let alloc = rt.alloc();
    let (array, mut w, mut a, mut b) = two_readers(alloc, |item: Item| home(item))?;
    let mut written = Written {
        replies: Vec::new(alloc),
        told: Vec::new(alloc),
        regions: 0,
    };
    work(&rt, alloc, &array, &mut w, &mut written, &mut a, &mut b)?;
    let noted = [array.answered(&mut w, 0), array.answered(&mut w, 1)];
    let closed = close(alloc, array, w, a.pass, b.pass)?;
    assert_eq!(rt; noted, [a.answers.len() as u64, b.answers.len() as u64]);
    assert_eq!(rt; written.regions, EDITS / 3);
    let told = written.told.as_slice();
    assert_eq!(rt; first_misplaced(alloc, told, 0, &a.answers)?, None);
    assert_eq!(rt; first_misplaced(alloc, told, 1, &b.answers)?, None);
    let lists = lists_after(alloc, &written.replies)?;
    assert_eq!(rt;
        lists.as_ref().map(|l| l.committed()),
        list_in(&closed.words)
    );
    Ok(())
}
