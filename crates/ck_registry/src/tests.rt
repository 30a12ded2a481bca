ghost use Rattle.std.specs.Prelude.{◌≡◌, ℕ, ◌+◌, ◌<◌, ◌≤◌, ◌^◌, None, vec_len, MatchResult};
ghost use Rattle.std.specs.Option.{MatchOption};
ghost use Rattle.ck_run.specs.Tokens.{table, number};
ghost use Rattle.ck_registry.specs.State.{state};
ghost use Rattle.ck_registry.specs.Ends.{depth};
ghost use Rattle.ck_registry.specs.Calls.{activity_after_scan};
ghost use Rattle.ck_registry.specs.Closing.{AreFreshVisitors};

use crate::{Advance, Member, Registry, Scan, Visitor};
use ck_epoch::Item;
use std::alloc::{AllocError, Global};
use std::test::Fail;
use std::thread::{Threads, join_mut};

const X: Item = Item { at: 8, log: 3 };

// Advances where the scan, which was the member's last step, was ready.
fn advance_after(registry: &Registry, m: &mut Member, answer: Scan) -> Option<Advance>
    requires table { table m.old.token ≡ registry.now }
    requires calls { m.old.calls < 2 ^ 32 }
    requires scanned { (state m.old.token).activity ≡ activity_after_scan answer }
    ensures same { (table m.new.token ≡ table m.old.token) × (number m.new.token ≡ number m.old.token) × (m.new.room ≡ m.old.room) }
    ensures depth { depth m.new.token ≡ depth m.old.token }
    ensures calls { m.new.calls ≤ m.old.calls + 1 }
{
    match answer {
        Scan::Ready {
            n: _,
            rec: _,
            epoch,
        } => Some(registry.advance(m, epoch)),
        _ => None,
    }
}

#[derive(PartialEq, Debug, Drop)]
struct RaceAnswers {
    first: Scan,
    second: Scan,
    moved: Option<Advance>,
    raced: Option<Advance>,
    late: Scan,
}

// The second member begins a section, and both scan. The second advances, and then the first.
fn race(registry: &Registry, a: &mut Member, b: &mut Member) -> RaceAnswers
    requires tables { (table a.old.token ≡ registry.now) × (table b.old.token ≡ registry.now) }
    requires calls { (a.old.calls < 2 ^ 16) × (b.old.calls < 2 ^ 16) }
    requires depth { depth b.old.token ≡ 0 }
    ensures a { (table a.new.token ≡ table a.old.token) × (number a.new.token ≡ number a.old.token) × (a.new.room ≡ a.old.room) × (a.new.calls ≤ a.old.calls + 3) }
    ensures b { (table b.new.token ≡ table b.old.token) × (number b.new.token ≡ number b.old.token) × (depth b.new.token ≡ 1) × (b.new.calls ≤ b.old.calls + 3) }
{
    registry.begin(b);
    let first = registry.scan(a);
    let second = registry.scan(b);
    let moved = advance_after(registry, b, second);
    let raced = advance_after(registry, a, first);
    let late = registry.scan(a);
    RaceAnswers {
        first,
        second,
        moved,
        raced,
        late,
    }
}

// Hands the record back, where nothing is open, pending or waiting.
fn leave(registry: &Registry, m: Member) -> Result<Member, Visitor>
    requires table { table m.token ≡ registry.now }
    ensures { MatchResult result
        (λ k. k ≡ m)
        (λ v. (table v.token ≡ table m.token) × (number v.token ≡ number m.token) × (v.calls ≡ m.calls) × (v.room ≡ m.room)) }
{
    if m.depth() == 0 && m.pending() == 0 && m.waiting() == 0 {
        Err(registry.unregister(m))
    } else {
        Ok(m)
    }
}

// Retires an item where few are pending or wait.
fn retire(registry: &Registry, m: &mut Member, item: Item) -> bool
    requires table { table m.old.token ≡ registry.now }
    requires calls { m.old.calls < 2 ^ 32 }
    requires room { m.old.room ≡ 4 }
    ensures same { (table m.new.token ≡ table m.old.token) × (m.new.room ≡ m.old.room) }
    ensures depth { depth m.new.token ≡ depth m.old.token }
    ensures calls { m.new.calls ≤ m.old.calls + 1 }
{
    let few = m.pending() < 2 && m.waiting() < 2;
    if few {
        registry.call(m, item);
    }
    few
}

#[derive(PartialEq, Debug, Drop)]
struct ReuseAnswers {
    tried: u64,
    rec: u64,
    ready: Scan,
    moved: Option<Advance>,
    clear: Scan,
    item: Option<Item>,
}

// The second member's record is handed back, and the third visitor takes it.
fn reuse(registry: &Registry, a: &mut Member, mut b: Member, c: Visitor) -> Option<ReuseAnswers>
    requires tables { (table a.old.token ≡ registry.now) × (table b.token ≡ registry.now) × (table c.token ≡ registry.now) }
    requires calls { (a.old.calls < 2 ^ 16) × (b.calls < 2 ^ 16) × (c.calls < 2 ^ 16) }
    requires room { a.old.room ≡ 4 }
    requires depth { depth b.token ≡ 1 }
{
    let (tried, c) = match registry.register(c) {
        Ok(_) => return None,
        Err(no) => (no.tried, no.visitor),
    };
    registry.end(&mut b);
    if leave(registry, b).is_ok() {
        return None;
    }
    let mut c = registry.register(c).ok()?;
    let rec = c.rec();
    registry.begin(&mut c);
    if !retire(registry, a, X) {
        return None;
    }
    let ready = registry.scan(a);
    registry.end(&mut c);
    let moved = advance_after(registry, a, ready);
    let clear = registry.scan(a);
    let item = registry.next_item(a);
    Some(ReuseAnswers {
        tried,
        rec,
        ready,
        moved,
        clear,
        item,
    })
}

// The next visitor of a new registry.
fn next_of(registry: &Registry, visitors: &mut Vec<Visitor>) -> Option<Visitor>
    requires fresh { AreFreshVisitors registry.now 4 0 visitors.old.items }
    ensures left { AreFreshVisitors registry.now 4 0 visitors.new.items }
    ensures visitor { MatchOption result (Unit {0}) (λ v. (table v.token ≡ registry.now) × (v.calls ≡ 0) × (v.room ≡ 4)) }
{
    let _registry = registry; // only the contract reads it
    visitors.pop()
}

// It takes a record.
fn next_member(registry: &Registry, visitors: &mut Vec<Visitor>) -> Option<Member>
    requires fresh { AreFreshVisitors registry.now 4 0 visitors.old.items }
    ensures left { AreFreshVisitors registry.now 4 0 visitors.new.items }
    ensures member { MatchOption result (Unit {0}) (λ m. (table m.token ≡ registry.now) × (m.calls ≡ 0) × (m.room ≡ 4) × (depth m.token ≡ 0)) }
{
    registry.register(next_of(registry, visitors)?).ok()
}

// The race, and then the record that is taken again, with the same two members.
fn race_and_reuse(
    registry: &Registry,
    mut visitors: Vec<Visitor>,
) -> Option<(RaceAnswers, ReuseAnswers)>
    requires fresh { AreFreshVisitors registry.now 4 0 visitors.items }
{
    let mut a = next_member(registry, &mut visitors)?;
    let mut b = next_member(registry, &mut visitors)?;
    let c = next_of(registry, &mut visitors)?;
    let race = race(registry, &mut a, &mut b);
    let reuse = reuse(registry, &mut a, b, c)?;
    Some((race, reuse))
}

#[test]
fn a_race_for_an_epoch_and_a_record_that_is_taken_again(rt: HostRuntime) -> Result<(), Fail> {
    let (registry, visitors) = Registry::new(rt.alloc(), 2, 3, 4)?;
    let ready = Scan::Ready {
        n: 0,
        rec: 1,
        epoch: 4,
    };
    let race = RaceAnswers {
        first: ready,
        second: ready,
        moved: Some(Advance::Moved { n: 0 }),
        raced: Some(Advance::Raced { found: 5 }),
        late: Scan::Blocked {
            n: 0,
            rec: 1,
            epoch: 4,
        },
    };
    let reuse = ReuseAnswers {
        tried: 2,
        rec: 1,
        ready: Scan::Ready {
            n: 0,
            rec: 1,
            epoch: 5,
        },
        moved: Some(Advance::Moved { n: 0 }),
        clear: Scan::Clear { n: 1 },
        item: Some(X),
    };
    assert_eq!(rt; race_and_reuse(&registry, visitors), Some((race, reuse)));
    Ok(())
}

// Takes a record, opens and ends a section, and hands the record back.
fn pass_through(registry: &Registry, v: Visitor) -> Option<Visitor>
    requires table { table v.token ≡ registry.now }
    requires calls { v.calls < 2 ^ 16 }
    ensures same { MatchOption result (Unit {0}) (λ w. (table w.token ≡ table v.token) × (number w.token ≡ number v.token)) }
{
    let mut m = registry.register(v).ok()?;
    registry.begin(&mut m);
    registry.end(&mut m);
    leave(registry, m).err()
}

#[test]
fn closes_with_all_visitors(rt: HostRuntime) -> Result<(), Fail> {
    let (registry, visitors) = Registry::new(rt.alloc(), 1, 2, 1)?;
    assert_eq!(rt; visitors[1].calls(), 0);
    registry.close(visitors);
    Ok(())
}

#[test]
fn closes_after_a_section(rt: HostRuntime) -> Result<(), Fail> {
    let (registry, mut visitors) = Registry::new(rt.alloc(), 1, 1, 1)?;
    let passed = match visitors.pop() {
        Some(v) => pass_through(&registry, v),
        None => None,
    };
    assert!(rt; passed.is_some());
    if let Some(v) = passed {
        registry.close(vec![in rt.alloc(); v]?);
    }
    Ok(())
}

// Opens a section, retires an item within it, and scans and advances after it.
fn visit(registry: &Registry, m: &mut Member, item: Item) -> bool
    requires table { table m.old.token ≡ registry.now }
    requires calls { m.old.calls < 2 ^ 30 }
    requires room { m.old.room ≡ 4 }
    requires depth { depth m.old.token ≡ 0 }
    ensures same { (table m.new.token ≡ table m.old.token) × (m.new.room ≡ m.old.room) }
    ensures depth { depth m.new.token ≡ 0 }
    ensures calls { m.new.calls ≤ m.old.calls + 5 }
{
    registry.begin(m);
    let retired = retire(registry, m, item);
    registry.end(m);
    let answer = registry.scan(m);
    advance_after(registry, m, answer);
    retired
}

// Takes an item, where one waits.
fn take(registry: &Registry, m: &mut Member, taken: &mut Vec<u64>) -> Result<(), AllocError>
    requires table { table m.old.token ≡ registry.now }
    requires calls { m.old.calls < 2 ^ 32 }
    ensures same { (m.new.token ≡ m.old.token) × (m.new.room ≡ m.old.room) × (m.new.calls ≡ m.old.calls + 1) }
{
    if let Some(item) = registry.next_item(m) {
        taken.push(item.at)?;
    }
    Ok(())
}

// What a thread retired and took.
#[derive(Drop)]
struct Labels {
    retired: Vec<u64>,
    taken: Vec<u64>,
}

// One visit of a visitor, or of a member that couldn't hand its record back yet.
fn turn(
    registry: &Registry,
    seat: Result<Member, Visitor>,
    label: u64,
    labels: &mut Labels,
) -> Result<Result<Member, Visitor>, AllocError>
    requires seat { MatchResult seat
        (λ m. (table m.token ≡ registry.now) × (m.calls < 2 ^ 30) × (m.room ≡ 4) × (depth m.token ≡ 0))
        (λ v. (table v.token ≡ registry.now) × (v.calls < 2 ^ 30) × (v.room ≡ 4)) }
    ensures seat { (k : ℕ) → MatchResult seat (λ m. m.calls ≤ k) (λ v. v.calls ≤ k) → MatchResult result (λ s. MatchResult s
        (λ m. (table m.token ≡ registry.now) × (m.calls ≤ k + 8) × (m.room ≡ 4) × (depth m.token ≡ 0))
        (λ v. (table v.token ≡ registry.now) × (v.calls ≤ k + 8) × (v.room ≡ 4))) (λ _. Unit {0}) }
{
    let mut m = match seat {
        Ok(m) => m,
        Err(v) => match registry.register(v) {
            Ok(m) => m,
            Err(no) => return Ok(Err(no.visitor)),
        },
    };
    if visit(registry, &mut m, Item { at: label, log: 0 }) {
        labels.retired.push(label)?;
    }
    take(registry, &mut m, &mut labels.taken)?;
    take(registry, &mut m, &mut labels.taken)?;
    Ok(leave(registry, m))
}

const TURNS: u64 = 40;

// What a thread has: its visitor, then what became of it, and the labels.
#[derive(Drop)]
struct Worker {
    visitor: Option<Visitor>,
    seat: Option<Result<Member, Visitor>>,
    labels: Labels,
}

fn new_worker(alloc: Global, registry: &Registry, visitors: &mut Vec<Visitor>) -> Worker
    requires fresh { AreFreshVisitors registry.now 4 0 visitors.old.items }
    ensures left { AreFreshVisitors registry.now 4 0 visitors.new.items }
    ensures visitor { MatchOption result.visitor (Unit {0}) (λ v. (table v.token ≡ registry.now) × (v.calls ≡ 0) × (v.room ≡ 4)) }
    ensures seat { result.seat ≡ None }
{
    Worker {
        visitor: next_of(registry, visitors),
        seat: None,
        labels: Labels {
            retired: Vec::new(alloc),
            taken: Vec::new(alloc),
        },
    }
}

// So many turns of one thread's visitor.
fn work(registry: &Registry, w: &mut Worker, first: u64) -> Result<(), AllocError>
    requires first { first < 2 ^ 16 }
    requires visitor { MatchOption w.old.visitor (Unit {0}) (λ v. (table v.token ≡ registry.now) × (v.calls ≡ 0) × (v.room ≡ 4)) }
    requires seat { w.old.seat ≡ None }
    ensures seat { MatchOption w.new.seat (Unit {0}) (λ s. MatchResult s
        (λ m. (table m.token ≡ registry.now) × (m.calls < 2 ^ 30) × (m.room ≡ 4) × (depth m.token ≡ 0))
        (λ v. (table v.token ≡ registry.now) × (v.calls < 2 ^ 30) × (v.room ≡ 4))) }
{
    let Some(v) = w.visitor.take() else {
        return Ok(());
    };
    let mut seat = Err(v);
    for i in 0..TURNS {
        seat = turn(registry, seat, first + i, &mut w.labels)?;
    }
    w.seat = Some(seat);
    Ok(())
}

fn work_both<R: Threads>(
    rt: &R,
    registry: &Registry,
    a: &mut Worker,
    b: &mut Worker,
    first: u64,
) -> Result<(), AllocError>
    requires first { first < 2 ^ 15 }
    requires visitors { MatchOption a.old.visitor (Unit {0}) (λ v. (table v.token ≡ registry.now) × (v.calls ≡ 0) × (v.room ≡ 4))
        × MatchOption b.old.visitor (Unit {0}) (λ v. (table v.token ≡ registry.now) × (v.calls ≡ 0) × (v.room ≡ 4)) }
    requires seats { (a.old.seat ≡ None) × (b.old.seat ≡ None) }
    ensures a { MatchOption a.new.seat (Unit {0}) (λ s. MatchResult s
        (λ m. (table m.token ≡ registry.now) × (m.calls < 2 ^ 30) × (m.room ≡ 4) × (depth m.token ≡ 0))
        (λ v. (table v.token ≡ registry.now) × (v.calls < 2 ^ 30) × (v.room ≡ 4))) }
    ensures b { MatchOption b.new.seat (Unit {0}) (λ s. MatchResult s
        (λ m. (table m.token ≡ registry.now) × (m.calls < 2 ^ 30) × (m.room ≡ 4) × (depth m.token ≡ 0))
        (λ v. (table v.token ≡ registry.now) × (v.calls < 2 ^ 30) × (v.room ≡ 4))) }
{
    let (x, y) = join_mut(
        rt,
        &mut || work(registry, a, first),
        &mut || work(registry, b, first + TURNS),
    );
    x?;
    y
}

// The member that is left dispatches what is pending, takes all and hands its record back. Then what was taken is put in order.
fn finish(registry: &Registry, w: &mut Worker) -> Result<(), AllocError>
    requires seat { MatchOption w.old.seat (Unit {0}) (λ s. MatchResult s
        (λ m. (table m.token ≡ registry.now) × (m.calls < 2 ^ 30) × (m.room ≡ 4) × (depth m.token ≡ 0))
        (λ v. (table v.token ≡ registry.now) × (v.calls < 2 ^ 30) × (v.room ≡ 4))) }
{
    match w.seat.take() {
        Some(Ok(mut m)) => {
            registry.scan(&mut m);
            take(registry, &mut m, &mut w.labels.taken)?;
            take(registry, &mut m, &mut w.labels.taken)?;
            take(registry, &mut m, &mut w.labels.taken)?;
            take(registry, &mut m, &mut w.labels.taken)?;
            w.visitor = leave(registry, m).err();
        }
        Some(Err(v)) => w.visitor = Some(v),
        None => {}
    }
    w.labels.taken.as_mut_slice().sort_unstable();
    Ok(())
}

#[test]
fn four_threads_get_each_item_back_once(rt: HostRuntime) -> Result<(), Fail> {
    let (registry, mut visitors) = Registry::new(rt.alloc(), 3, 4, 4)?;
    let mut a = new_worker(rt.alloc(), &registry, &mut visitors);
    let mut b = new_worker(rt.alloc(), &registry, &mut visitors);
    let mut c = new_worker(rt.alloc(), &registry, &mut visitors);
    let mut d = new_worker(rt.alloc(), &registry, &mut visitors);
    let (x, y) = join_mut(
        &rt,
        &mut || work_both(&rt, &registry, &mut a, &mut b, 0),
        &mut || work_both(&rt, &registry, &mut c, &mut d, 2 * TURNS),
    );
    x?;
    y?;
    finish(&registry, &mut a)?;
    finish(&registry, &mut b)?;
    finish(&registry, &mut c)?;
    finish(&registry, &mut d)?;
    let each_left = a.visitor.is_some()
        && b.visitor.is_some()
        && c.visitor.is_some()
        && d.visitor.is_some();
    assert!(rt; each_left);
    let (a, b, c, d) = (a.labels, b.labels, c.labels, d.labels);
    let none = a.retired.is_empty()
        && b.retired.is_empty()
        && c.retired.is_empty()
        && d.retired.is_empty();
    assert!(rt; !none);
    assert_eq!(rt; a.taken.as_slice(), a.retired.as_slice());
    assert_eq!(rt; b.taken.as_slice(), b.retired.as_slice());
    assert_eq!(rt; c.taken.as_slice(), c.retired.as_slice());
    assert_eq!(rt; d.taken.as_slice(), d.retired.as_slice());
    Ok(())
}
