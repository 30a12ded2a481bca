//! One writer and three readers, each in a thread. What the readers were answered is judged by a plain program after the join.
ghost use Rattle.std.specs.Prelude.{true, ◌≡◌, ◌+◌, ◌*◌, ◌<◌, ◌≤◌, ◌^◌, vec_len, All};
ghost use Rattle.ck_run.specs.Tokens.{table};
ghost use Rattle.ck_epoch.specs.Lists.{Answers};
ghost use Rattle.ck_epoch.specs.State.{depth};
ghost use Rattle.ck_signal.specs.Signals.{readers};
ghost use Rattle.ck_htlaw.specs.Client.{home_of};
ghost use Rattle.ck_ht.specs.Ends.{IsPassReady};

use crate::tests::make;
use crate::{Ht, HtPass, HtWriter, home};
use ck_epoch::{Closed, Item};
use ck_history::{Book, Busy, Key, Reply, Update};
use ck_words::Back;
use crossbeam_utils::Backoff;
use std::alloc::{AllocError, Global};
use std::sync::Wait;
use std::test::Fail;
use std::thread::{Threads, join_mut};

// The writer makes its updates in stretches of so many, and marks after each.
const STRETCH: u64 = 32;

const STRETCHES: u64 = 48;

const UPDATES: u64 = STRETCH * STRETCHES;

// The first updates are of few keys, which take each other's slots, and the others of so many. Readers look at a few more.
const FIRST: u64 = 512;

const FEW: u64 = 3;

const KEYS: u64 = 104;

const NUMBERS: u64 = KEYS + 8;

// A reader takes at most so many answers from one mark to the next.
const ANSWERS: u64 = 256;

// The most pairs of a map.
const MOST: u64 = 262_144;

// An answer, and how many updates `reached` had told before.
#[derive(Drop)]
struct Answer {
    key: Key,
    value: Option<u64>,
    least: u64,
}

#[derive(Drop)]
struct Reader {
    pass: HtPass,
    answers: Vec<Answer>,
}

// Each reader had given so many answers when the log had so many updates, as `answered` told.
#[derive(Drop)]
struct Told {
    answers: [u64; 3],
    updates: u64,
}

// What the writer was answered and told, and how many regions `barrier` gave back.
#[derive(Drop)]
struct Written {
    replies: Vec<Result<Reply, Busy>>,
    told: Vec<Told>,
    regions: u64,
}

fn nth_key(n: u64) -> Key
    requires { n < 2 ^ 32 }
{
    Key::new(u128::from(n) * ((1 << 64) + 1) + 1).unwrap()
}

fn nth_updated(i: u64) -> Key
    requires { i < 2 ^ 32 }
{
    if i < FIRST {
        nth_key(i % FEW)
    } else {
        nth_key(29 * i % KEYS)
    }
}

// The number of the nth key that is looked for, after so many updates.
fn nth_asked(updates: u64, n: u64) -> u64
    ensures { result < 2 ^ 32 }
{
    if updates < FIRST {
        n % FEW
    } else {
        n % NUMBERS
    }
}

// The keys come in turn, and so does what is done with each. Between 8 and 128 slots there are four rebuilds, and more where tombstones stand.
fn nth_update(i: u64) -> Update<Key>
    requires { i < 2 ^ 32 }
{
    let key = nth_updated(i);
    if i % 127 == 126 {
        return Update::Tidy;
    }
    match i % 7 {
        0 | 3 | 5 => Update::Set(key, i),
        1 => Update::Put(key, i),
        _ => Update::Del(key),
    }
}

// Looks at the key with this number, in a section of its own, and tells the writer.
fn ask<R: Wait>(
    rt: &R,
    ht: &Ht,
    reader: &mut Reader,
    number: u64,
    least: u64,
) -> Result<(), AllocError>
    requires number { number < 2 ^ 32 }
    requires table { table reader.old.pass.token ≡ ht.now }
    requires ready { IsPassReady ht.now.origin reader.old.pass }
    requires outside { depth reader.old.pass.token ≡ 0 }
    requires calls { reader.old.pass.calls < 2 ^ 39 }
    ensures table { table reader.new.pass.token ≡ table reader.old.pass.token }
    ensures ready { IsPassReady ht.now.origin reader.new.pass }
    ensures outside { depth reader.new.pass.token ≡ 0 }
    ensures calls { reader.new.pass.calls ≤ reader.old.pass.calls + 3 }
{
    let key = nth_key(number);
    ht.begin(&mut reader.pass);
    let value = ht.get(rt, &mut reader.pass, key);
    ht.end(&mut reader.pass);
    ht.note(&mut reader.pass);
    reader.answers.push(Answer { key, value, least })?;
    Ok(())
}

// How many answers a reader may still take before the next mark, of which it knows by the number of updates that are marked.
#[derive(Drop)]
struct Pace {
    marked: u64,
    left: u64,
}

impl Pace {
    fn new() -> Pace {
        Pace {
            marked: 0,
            left: ANSWERS,
        }
    }

    // Whether an answer may be taken now that so many updates are marked.
    fn allows(&mut self, marked: u64) -> bool {
        if self.marked < marked {
            self.marked = marked;
            self.left = ANSWERS;
        }
        let allowed = self.left > 0;
        self.left = self.left.saturating_sub(1);
        allowed
    }
}

// Looks at key after key, as the pace allows, until all updates are marked.
fn read_until_marked<R: Wait>(
    rt: &R,
    ht: &Ht,
    reader: &mut Reader,
    first: u64,
) -> Result<(), AllocError>
    requires first { first < 2 ^ 16 }
    requires table { table reader.old.pass.token ≡ ht.now }
    requires ready { IsPassReady ht.now.origin reader.old.pass }
    requires outside { depth reader.old.pass.token ≡ 0 }
    requires calls { reader.old.pass.calls ≡ 0 }
    ensures table { table reader.new.pass.token ≡ table reader.old.pass.token }
    ensures ready { IsPassReady ht.now.origin reader.new.pass }
    ensures outside { depth reader.new.pass.token ≡ 0 }
    ensures calls { reader.new.pass.calls ≤ 2 ^ 38 }
{
    let backoff = Backoff::new();
    let mut pace = Pace::new();
    for k in 0..(1u64 << 36) {
        let Err(found) = ht.reached(&mut reader.pass, UPDATES) else {
            return Ok(());
        };
        if pace.allows(found) {
            ask(rt, ht, reader, nth_asked(found, first + 13 * k), found)?;
        } else {
            backoff.snooze();
        }
    }
    Ok(())
}

// Looks at each key once, when all updates are marked.
fn read_each<R: Wait>(rt: &R, ht: &Ht, reader: &mut Reader) -> Result<(), AllocError>
    requires table { table reader.old.pass.token ≡ ht.now }
    requires ready { IsPassReady ht.now.origin reader.old.pass }
    requires outside { depth reader.old.pass.token ≡ 0 }
    requires calls { reader.old.pass.calls ≤ 2 ^ 38 }
    ensures table { table reader.new.pass.token ≡ table reader.old.pass.token }
    ensures ready { IsPassReady ht.now.origin reader.new.pass }
{
    for n in 0..NUMBERS {
        ask(rt, ht, reader, n, UPDATES)?;
    }
    Ok(())
}

// A reader's part. After so many answers from one mark on it waits for the next mark.
fn read<R: Wait>(rt: &R, ht: &Ht, reader: &mut Reader, first: u64) -> Result<(), AllocError>
    requires first { first < 2 ^ 16 }
    requires table { table reader.old.pass.token ≡ ht.now }
    requires ready { IsPassReady ht.now.origin reader.old.pass }
    requires outside { depth reader.old.pass.token ≡ 0 }
    requires calls { reader.old.pass.calls ≡ 0 }
    ensures table { table reader.new.pass.token ≡ table reader.old.pass.token }
    ensures ready { IsPassReady ht.now.origin reader.new.pass }
{
    read_until_marked(rt, ht, reader, first)?;
    read_each(rt, ht, reader)
}

// Two readers in two threads.
fn read_two<R: Threads + Wait + Sync>(
    rt: &R,
    ht: &Ht,
    a: &mut Reader,
    b: &mut Reader,
) -> Result<(), AllocError>
    requires tables { (table a.old.pass.token ≡ ht.now) × (table b.old.pass.token ≡ ht.now) }
    requires ready { IsPassReady ht.now.origin a.old.pass × IsPassReady ht.now.origin b.old.pass }
    requires outside { (depth a.old.pass.token ≡ 0) × (depth b.old.pass.token ≡ 0) }
    requires calls { (a.old.pass.calls ≡ 0) × (b.old.pass.calls ≡ 0) }
    ensures tables { (table a.new.pass.token ≡ table a.old.pass.token) × (table b.new.pass.token ≡ table b.old.pass.token) }
    ensures ready { IsPassReady ht.now.origin a.new.pass × IsPassReady ht.now.origin b.new.pass }
{
    let (x, y) = join_mut(rt, &mut || read(rt, ht, a, 0), &mut || read(rt, ht, b, 30));
    x?;
    y
}

// Three readers in three threads.
fn read_three<R: Threads + Wait + Sync>(
    rt: &R,
    ht: &Ht,
    a: &mut Reader,
    b: &mut Reader,
    c: &mut Reader,
) -> Result<(), AllocError>
    requires tables { (table a.old.pass.token ≡ ht.now) × (table b.old.pass.token ≡ ht.now) × (table c.old.pass.token ≡ ht.now) }
    requires ready { IsPassReady ht.now.origin a.old.pass × IsPassReady ht.now.origin b.old.pass × IsPassReady ht.now.origin c.old.pass }
    requires outside { (depth a.old.pass.token ≡ 0) × (depth b.old.pass.token ≡ 0) × (depth c.old.pass.token ≡ 0) }
    requires calls { (a.old.pass.calls ≡ 0) × (b.old.pass.calls ≡ 0) × (c.old.pass.calls ≡ 0) }
    ensures tables { (table a.new.pass.token ≡ table a.old.pass.token) × (table b.new.pass.token ≡ table b.old.pass.token) × (table c.new.pass.token ≡ table c.old.pass.token) }
    ensures ready { IsPassReady ht.now.origin a.new.pass × IsPassReady ht.now.origin b.new.pass × IsPassReady ht.now.origin c.new.pass }
{
    let (x, y) = join_mut(
        rt,
        &mut ||
            requires tables { (table a.now.pass.token ≡ ht.now) × (table b.now.pass.token ≡ ht.now) }
            requires ready { IsPassReady ht.now.origin a.now.pass × IsPassReady ht.now.origin b.now.pass }
            requires outside { (depth a.now.pass.token ≡ 0) × (depth b.now.pass.token ≡ 0) }
            requires calls { (a.now.pass.calls ≡ 0) × (b.now.pass.calls ≡ 0) }
        { read_two(rt, ht, a, b) },
        &mut || read(rt, ht, c, 60),
    );
    x?;
    y
}

// How many answers the reader has given, as soon as they are more than so many.
fn answered_beyond<F, R: Wait>(rt: &R, ht: &Ht, w: &mut HtWriter<F>, reader: u64, seen: u64) -> u64
    requires table { table w.old.writer.token ≡ ht.now }
    requires reader { reader < readers ht.now.origin }
    ensures table { table w.new.writer.token ≡ table w.old.writer.token }
    ensures handler { w.new.writer.handler ≡ w.old.writer.handler }
    ensures calls { w.new.writer.calls ≡ w.old.writer.calls }
{
    let backoff = Backoff::new();
    for _ in rt.forever() {
        let answers = ht.answered(w, reader);
        if seen < answers {
            return answers;
        }
        backoff.snooze();
    }
    unreachable!()
}

// Makes the updates of one stretch.
fn write_stretch<F: Fn(Item) -> Back>(
    ht: &Ht,
    w: &mut HtWriter<F>,
    written: &mut Written,
    stretch: u64,
) -> Result<(), AllocError>
    requires table { table w.old.writer.token ≡ ht.now }
    requires arena { ht.now.origin.config.client.client.arena_log ≡ 23 }
    requires stretch { stretch < 2 ^ 16 }
    requires calls { w.old.writer.calls < 2 ^ 31 }
    requires handler { Answers (λ item. true) (λ item. home_of item) (F.pre w.old.writer.handler) (F.post w.old.writer.handler) }
    ensures table { table w.new.writer.token ≡ table w.old.writer.token }
    ensures handler { w.new.writer.handler ≡ w.old.writer.handler }
    ensures calls { w.new.writer.calls ≤ w.old.writer.calls + 3 * STRETCH }
{
    for i in 0..STRETCH {
        let reply = make(ht, w, nth_update(STRETCH * stretch + i));
        written.replies.push(reply)?;
    }
    Ok(())
}

// Waits until each reader has given more answers than these.
fn await_answers<F, R: Wait>(
    rt: &R,
    ht: &Ht,
    w: &mut HtWriter<F>,
    seen: [u64; 3],
    updates: u64,
) -> Told
    requires table { table w.old.writer.token ≡ ht.now }
    requires readers { readers ht.now.origin ≡ 3 }
    ensures table { table w.new.writer.token ≡ table w.old.writer.token }
    ensures handler { w.new.writer.handler ≡ w.old.writer.handler }
    ensures calls { w.new.writer.calls ≡ w.old.writer.calls }
{
    let first = answered_beyond(rt, ht, w, 0, seen[0]);
    let second = answered_beyond(rt, ht, w, 1, seen[1]);
    let third = answered_beyond(rt, ht, w, 2, seen[2]);
    Told {
        answers: [first, second, third],
        updates,
    }
}

// Asks how many answers the readers have given, and then marks, so that each may give more.
fn ask_and_mark<F>(ht: &Ht, w: &mut HtWriter<F>) -> [u64; 3]
    requires table { table w.old.writer.token ≡ ht.now }
    requires readers { readers ht.now.origin ≡ 3 }
    ensures table { table w.new.writer.token ≡ table w.old.writer.token }
    ensures handler { w.new.writer.handler ≡ w.old.writer.handler }
    ensures calls { w.new.writer.calls ≡ w.old.writer.calls }
{
    let first = ht.answered(w, 0);
    let second = ht.answered(w, 1);
    let third = ht.answered(w, 2);
    ht.mark(w);
    [first, second, third]
}

// Makes all updates. Before each stretch it waits until each reader has given an answer more than when the stretch before was marked.
fn write<F: Fn(Item) -> Back, R: Wait>(
    rt: &R,
    ht: &Ht,
    w: &mut HtWriter<F>,
    written: &mut Written,
) -> Result<(), AllocError>
    requires table { table w.old.writer.token ≡ ht.now }
    requires arena { ht.now.origin.config.client.client.arena_log ≡ 23 }
    requires readers { readers ht.now.origin ≡ 3 }
    requires calls { w.old.writer.calls ≡ 0 }
    requires handler { Answers (λ item. true) (λ item. home_of item) (F.pre w.old.writer.handler) (F.post w.old.writer.handler) }
    ensures table { table w.new.writer.token ≡ table w.old.writer.token }
{
    let mut seen = [0; 3];
    for k in 0..STRETCHES {
        let told = await_answers(rt, ht, w, seen, STRETCH * k);
        write_stretch(ht, w, written, k)?;
        written.told.push(told)?;
        seen = ask_and_mark(ht, w);
        let given = ht.barrier(rt, w);
        written.regions = written.regions.saturating_add(given);
    }
    Ok(())
}

// The writer in a thread, and the readers in three others.
fn work<F: Fn(Item) -> Back + Send + Sync, R: Threads + Wait + Sync>(
    rt: &R,
    ht: &Ht,
    w: &mut HtWriter<F>,
    written: &mut Written,
    a: &mut Reader,
    b: &mut Reader,
    c: &mut Reader,
) -> Result<(), AllocError>
    requires writer { (table w.old.writer.token ≡ ht.now) × (w.old.writer.calls ≡ 0) }
    requires handler { Answers (λ item. true) (λ item. home_of item) (F.pre w.old.writer.handler) (F.post w.old.writer.handler) }
    requires table { (ht.now.origin.config.client.client.arena_log ≡ 23) × (readers ht.now.origin ≡ 3) }
    requires tables { (table a.old.pass.token ≡ ht.now) × (table b.old.pass.token ≡ ht.now) × (table c.old.pass.token ≡ ht.now) }
    requires ready { IsPassReady ht.now.origin a.old.pass × IsPassReady ht.now.origin b.old.pass × IsPassReady ht.now.origin c.old.pass }
    requires outside { (depth a.old.pass.token ≡ 0) × (depth b.old.pass.token ≡ 0) × (depth c.old.pass.token ≡ 0) }
    requires calls { (a.old.pass.calls ≡ 0) × (b.old.pass.calls ≡ 0) × (c.old.pass.calls ≡ 0) }
    ensures writer { table w.new.writer.token ≡ table w.old.writer.token }
    ensures tables { (table a.new.pass.token ≡ table a.old.pass.token) × (table b.new.pass.token ≡ table b.old.pass.token) × (table c.new.pass.token ≡ table c.old.pass.token) }
    ensures ready { IsPassReady ht.now.origin a.new.pass × IsPassReady ht.now.origin b.new.pass × IsPassReady ht.now.origin c.new.pass }
{
    let (x, y) = join_mut(
        rt,
        &mut ||
            requires writer { (table w.now.writer.token ≡ ht.now) × (w.now.writer.calls ≡ 0) }
            requires handler { Answers (λ item. true) (λ item. home_of item) (F.pre w.now.writer.handler) (F.post w.now.writer.handler) }
            requires table { (ht.now.origin.config.client.client.arena_log ≡ 23) × (readers ht.now.origin ≡ 3) }
        { write(rt, ht, w, written) },
        &mut ||
            requires tables { (table a.now.pass.token ≡ ht.now) × (table b.now.pass.token ≡ ht.now) × (table c.now.pass.token ≡ ht.now) }
            requires ready { IsPassReady ht.now.origin a.now.pass × IsPassReady ht.now.origin b.now.pass × IsPassReady ht.now.origin c.now.pass }
            requires outside { (depth a.now.pass.token ≡ 0) × (depth b.now.pass.token ≡ 0) × (depth c.now.pass.token ≡ 0) }
            requires calls { (a.now.pass.calls ≡ 0) × (b.now.pass.calls ≡ 0) × (c.now.pass.calls ≡ 0) }
        { read_three(rt, ht, a, b, c) },
    );
    x?;
    y
}

fn all_updates(alloc: Global) -> Result<Vec<Update<Key>>, AllocError> {
    let mut updates = Vec::new(alloc);
    for i in 0..UPDATES {
        updates.push(nth_update(i))?;
    }
    Ok(updates)
}

// The map of one thread after all updates. None where one of the replies isn't its own.
fn book_after(
    alloc: Global,
    updates: &[Update<Key>],
    replies: &[Result<Reply, Busy>],
) -> Result<Option<Book<Key>>, AllocError> {
    let mut book = Book::new(alloc, MOST);
    for (update, reply) in updates.iter().zip(replies) {
        if Ok(book.apply(*update)?) != *reply {
            return Ok(None);
        }
    }
    Ok(Some(book))
}

// The least place, from the present one on and from what `reached` told, at which the map has the answer. The map goes there.
fn place_of(
    book: &mut Book<Key>,
    updates: &[Update<Key>],
    place: usize,
    answer: &Answer,
) -> Result<Option<usize>, AllocError> {
    for at in place..=updates.len() {
        if answer.least <= at as u64 && book.find(&answer.key) == answer.value {
            return Ok(Some(at));
        }
        if let Some(update) = updates.get(at) {
            book.apply(*update)?;
        }
    }
    Ok(None)
}

// The greatest place that the reader's answer with this number may have, by what `answered` told.
fn greatest_place(told: &[Told], reader: usize, number: u64) -> u64
    requires { reader < 3 }
{
    for t in told {
        if number < t.answers[reader] {
            return t.updates;
        }
    }
    UPDATES
}

// The number of the reader's first answer that can't have a place: places never fall, and bear out what `reached` and `answered` told.
fn first_misplaced(
    alloc: Global,
    updates: &[Update<Key>],
    told: &[Told],
    reader: usize,
    answers: &[Answer],
) -> Result<Option<usize>, AllocError>
    requires { reader < 3 }
{
    let mut book = Book::new(alloc, MOST);
    let mut place = 0;
    for (number, answer) in answers.iter().enumerate() {
        let greatest = greatest_place(told, reader, number as u64);
        match place_of(&mut book, updates, place, answer)? {
            Some(at) if at as u64 <= greatest => place = at,
            _ => return Ok(Some(number)),
        }
    }
    Ok(None)
}

// The map of the region that the first of these words names: it is 32 times the region's place and the logarithm of its slots. A slot has a state,
// which is 1 where it is full, the low and the high word of a key, and a value. None where a key stands twice.
fn book_in(alloc: Global, words: &[u64]) -> Result<Option<Book<Key>>, AllocError> {
    let mut book = Book::new(alloc, MOST);
    let root = words.first().copied().unwrap_or(0);
    let Some(region) = words.get((root / 32) as usize..) else {
        return Ok(None);
    };
    for slot in region.chunks_exact(4).take(1 << (root % 32)) {
        let [1, low, high, value] = *slot else {
            continue;
        };
        let Some(key) = Key::new(u128::from(high) * (1 << 64) + u128::from(low)) else {
            return Ok(None);
        };
        if book.apply(Update::Put(key, value))? != Reply::Fresh {
            return Ok(None);
        }
    }
    Ok(Some(book))
}

// A reader of the last pass, with no answers.
fn next_reader(alloc: Global, ht: &Ht, passes: &mut Vec<HtPass>) -> Reader
    requires some { 0 < vec_len passes.old }
    requires tables { All (λ p. table p.token ≡ ht.now) passes.old.items }
    requires ready { All (λ p. IsPassReady ht.now.origin p) passes.old.items }
    requires new { All (λ p. (depth p.token ≡ 0) × (p.calls ≡ 0)) passes.old.items }
    ensures fewer { vec_len passes.new + 1 ≡ vec_len passes.old }
    ensures tables { All (λ p. table p.token ≡ ht.now) passes.new.items }
    ensures ready { All (λ p. IsPassReady ht.now.origin p) passes.new.items }
    ensures new { All (λ p. (depth p.token ≡ 0) × (p.calls ≡ 0)) passes.new.items }
    ensures table { table result.pass.token ≡ ht.now }
    ensures is_ready { IsPassReady ht.now.origin result.pass }
    ensures is_new { (depth result.pass.token ≡ 0) × (result.pass.calls ≡ 0) }
{
    let _ht = ht; // only the contract reads it
    let pass = passes.pop().unwrap();
    Reader {
        pass,
        answers: Vec::new(alloc),
    }
}

// What is left when the threads have ended: the words, and what the readers were answered.
#[derive(Drop)]
struct Left {
    closed: Closed,
    answers: [Vec<Answer>; 3],
}

// Closes the table with all its passes.
fn close<F: Drop>(
    alloc: Global,
    ht: Ht,
    w: HtWriter<F>,
    a: Reader,
    b: Reader,
    c: Reader,
) -> Result<Left, AllocError>
    requires writer { table w.writer.token ≡ ht }
    requires tables { (table a.pass.token ≡ ht) × (table b.pass.token ≡ ht) × (table c.pass.token ≡ ht) }
    requires ready { IsPassReady ht.origin a.pass × IsPassReady ht.origin b.pass × IsPassReady ht.origin c.pass }
{
    let mut passes = Vec::with_capacity(alloc, 3)?;
    passes.push(a.pass)?;
    passes.push(b.pass)?;
    passes.push(c.pass)?;
    let closed = ht.close(w, passes);
    Ok(Left {
        closed,
        answers: [a.answers, b.answers, c.answers],
    })
}

// Judges all that was answered, by the plain map: the first answer of each reader that has no place, and whether the replies and the words that
// are left are the map's.
fn judge(
    alloc: Global,
    written: &Written,
    left: &Left,
) -> Result<([Option<usize>; 3], bool), AllocError> {
    let updates = all_updates(alloc)?;
    let told = written.told.as_slice();
    let misplaced = [
        first_misplaced(alloc, &updates, told, 0, &left.answers[0])?,
        first_misplaced(alloc, &updates, told, 1, &left.answers[1])?,
        first_misplaced(alloc, &updates, told, 2, &left.answers[2])?,
    ];
    let Some(book) = book_after(alloc, &updates, &written.replies)? else {
        return Ok((misplaced, false));
    };
    let Some(words) = book_in(alloc, &left.closed.words)? else {
        return Ok((misplaced, false));
    };
    Ok((misplaced, words.pairs() == book.pairs()))
}

#[test]
fn each_answer_beside_the_writer_is_the_maps(rt: HostRuntime) -> Result<(), Fail> {
    let alloc = rt.alloc();
    let (ht, mut w, mut passes) = Ht::new(alloc, 0, 3, |item: Item| home(item))?;
    let mut c = next_reader(alloc, &ht, &mut passes);
    let mut b = next_reader(alloc, &ht, &mut passes);
    let mut a = next_reader(alloc, &ht, &mut passes);
    let mut written = Written {
        replies: Vec::new(alloc),
        told: Vec::new(alloc),
        regions: 0,
    };
    work(&rt, &ht, &mut w, &mut written, &mut a, &mut b, &mut c)?;
    let noted = ask_and_mark(&ht, &mut w);
    // At times the map has 49 pairs or more, for which 64 slots are too few, and never more than 64, so that no rebuild makes more than 128.
    let slots = ht.slots(&w);
    let left = close(alloc, ht, w, a, b, c)?;
    let answers = [
        left.answers[0].len() as u64,
        left.answers[1].len() as u64,
        left.answers[2].len() as u64,
    ];
    assert_eq!(rt; (noted, slots), (answers, 128));
    assert!(rt; 12 <= written.regions);
    let judged = judge(alloc, &written, &left)?;
    assert_eq!(rt; judged, ([None, None, None], true));
    Ok(())
}
