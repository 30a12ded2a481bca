ghost use Rattle.std.specs.Prelude.{◌≡◌, ◌+◌, ◌<◌, ◌≤◌, ◌^◌, vec_len};
ghost use Rattle.std.specs.Thread.{IsSync};
ghost use Rattle.ck_snap.specs.Tokens.{IsWriterOf, IsPassOf, AreFreshSnapPasses, fresh_pass, fresh_writer};

use crate::{Snap, SnapPass, SnapWriter};
use ck_history::{Key, Look, Reply};
use std::alloc::{AllocError, Global};
use std::sync::Wait;
use std::test::Fail;
use std::thread::{Threads, join_mut};

fn key(number: u64) -> Key
    requires { 0 < number }
    ensures { result ≡ number }
{
    Key::new(number as u128).unwrap()
}

// The only pass.
fn one(snap: &Snap, mut passes: Vec<SnapPass>) -> SnapPass
    requires fresh { AreFreshSnapPasses snap.now 0 passes.items }
    requires one { vec_len passes ≡ 1 }
    ensures { result ≡ fresh_pass snap.now 0 }
{
    let _snap = snap;
    passes.pop().unwrap()
}

// Both passes.
fn both(snap: &Snap, mut passes: Vec<SnapPass>) -> (SnapPass, SnapPass)
    requires fresh { AreFreshSnapPasses snap.now 0 passes.items }
    requires two { vec_len passes ≡ 2 }
    ensures first { result.0 ≡ fresh_pass snap.now 0 }
    ensures second { result.1 ≡ fresh_pass snap.now 1 }
{
    let _snap = snap;
    let second = passes.pop().unwrap();
    let first = passes.pop().unwrap();
    (first, second)
}

#[derive(Drop)]
struct Answers {
    replies: [Reply; 4],
    looks: [Look; 2],
    left: Vec<(Key, u64)>,
}

// Each update of one key, with a look-up after the first and one after the last.
fn each_update<R: Wait>(
    rt: &R,
    alloc: Global,
    snap: &Snap,
    w: &mut SnapWriter,
    pass: &mut SnapPass,
) -> Result<Answers, AllocError>
    requires mine { IsWriterOf snap.now w.old × IsPassOf snap.now pass.old }
    requires calls { (w.old.calls ≡ 0) × (pass.old.calls ≡ 0) }
    ensures { IsWriterOf snap.now w.new }
{
    let set = snap.set(rt, w, key(7), 10)?;
    let found = snap.look(rt, pass, key(7));
    let put = snap.put(rt, w, key(7), 11)?;
    let removed = snap.remove(rt, w, key(7))?;
    let tidied = snap.tidy(rt, w)?;
    let absent = snap.look(rt, pass, key(7));
    snap.tie(rt, w, pass)?;
    Ok(Answers {
        replies: [set, put, removed, tidied],
        looks: [found, absent],
        left: snap.entries(alloc, w)?,
    })
}

#[test]
fn a_pass_sees_each_update(rt: HostRuntime) -> Result<(), Fail> {
    let (snap, mut w, passes) = Snap::new(&rt, rt.alloc(), 1)?;
    let mut pass = one(&snap, passes);
    let answers = each_update(&rt, rt.alloc(), &snap, &mut w, &mut pass);
    snap.finish(&rt, w);
    let answers = answers?;
    assert_eq!(rt;
        answers.replies,
        [Reply::Fresh, Reply::Has(10), Reply::Was(10), Reply::Tidied]
    );
    assert_eq!(rt; answers.looks, [Look::Found(10), Look::Absent]);
    assert_eq!(rt; answers.left.len(), 0);
    Ok(())
}

// What `reached` and `answered` tell, and the counts of calls.
fn told<R: Wait>(
    rt: &R,
    snap: &Snap,
    w: &mut SnapWriter,
    pass: &mut SnapPass,
) -> Result<([Result<(), u64>; 3], u64, [u64; 2]), AllocError>
    requires mine { IsWriterOf snap.now w.old × IsPassOf snap.now pass.old }
    requires calls { (w.old.calls ≡ 0) × (pass.old.calls ≡ 0) }
    ensures { IsWriterOf snap.now w.new }
{
    let early = snap.reached(rt, pass, 1);
    snap.set(rt, w, key(1), 5)?;
    let met = snap.reached(rt, pass, 1);
    let more = snap.reached(rt, pass, 2);
    let answered = snap.answered(w, 0);
    snap.look(rt, pass, key(1));
    snap.tie(rt, w, pass)?;
    Ok(([early, met, more], answered, [w.calls(), pass.calls()]))
}

#[test]
fn waits_tell_how_many_updates_are_published(rt: HostRuntime) -> Result<(), Fail> {
    let (snap, mut w, passes) = Snap::new(&rt, rt.alloc(), 1)?;
    let mut pass = one(&snap, passes);
    let told = told(&rt, &snap, &mut w, &mut pass);
    snap.finish(&rt, w);
    assert_eq!(rt; told?, ([Err(0), Ok(()), Err(1)], 0, [2, 2]));
    Ok(())
}

// Sets key 7 to the numbers from 1 on.
fn count_up<R: Wait>(rt: &R, snap: &Snap, w: &mut SnapWriter, count: u64) -> Result<(), AllocError>
    requires mine { IsWriterOf snap.now w.old }
    requires calls { w.old.calls + count < 2 ^ 32 }
    ensures mine { IsWriterOf snap.now w.new }
    ensures calls { w.new.calls ≤ w.old.calls + count }
{
    for k in 0..count {
        snap.set(rt, w, key(7), k + 1)?;
    }
    Ok(())
}

// Looks for key 7 so often. It tells the last value, and whether one fell below the one before.
fn watch<R: Wait>(rt: &R, snap: &Snap, pass: &mut SnapPass, times: u64) -> (u64, bool)
    requires mine { IsPassOf snap.now pass.old }
    requires calls { pass.old.calls + times < 2 ^ 32 }
    ensures mine { IsPassOf snap.now pass.new }
    ensures calls { pass.new.calls ≤ pass.old.calls + times }
{
    let mut last = 0;
    let mut fell = false;
    for _k in 0..times {
        let now = match snap.look(rt, pass, key(7)) {
            Look::Found(value) => value,
            _ => 0,
        };
        fell = fell || now < last;
        last = now;
    }
    (last, fell)
}

// Two readers look for key 7 at the same time.
fn watch_both<R: Threads + Wait + Sync>(
    rt: &R,
    snap: &Snap,
    a: &mut SnapPass,
    b: &mut SnapPass,
) -> [bool; 2]
    requires mine { IsPassOf snap.now a.old × IsPassOf snap.now b.old }
    requires calls { (a.old.calls ≡ 0) × (b.old.calls ≡ 0) }
    ensures mine { IsPassOf snap.now a.new × IsPassOf snap.now b.new }
    ensures calls { (a.new.calls ≤ 2000) × (b.new.calls ≤ 2000) }
{
    let (first, second) = join_mut(
        rt,
        &mut || watch(rt, snap, a, 2000),
        &mut || watch(rt, snap, b, 2000),
    );
    [first.1, second.1]
}

// The writer counts up while two readers look.
fn count_and_watch<R: Threads + Wait + Sync>(
    rt: &R,
    snap: &Snap,
    w: &mut SnapWriter,
    a: &mut SnapPass,
    b: &mut SnapPass,
) -> (Result<(), AllocError>, [bool; 2])
    requires mine { IsWriterOf snap.now w.old × IsPassOf snap.now a.old × IsPassOf snap.now b.old }
    requires calls { (w.old.calls ≡ 0) × (a.old.calls ≡ 0) × (b.old.calls ≡ 0) }
    ensures mine { IsWriterOf snap.now w.new × IsPassOf snap.now a.new × IsPassOf snap.now b.new }
    ensures calls { (w.new.calls ≤ 2000) × (a.new.calls ≤ 2000) × (b.new.calls ≤ 2000) }
{
    let mut read = || -> [bool; 2]
        requires { IsSync R.row × IsPassOf snap.now a.now × IsPassOf snap.now b.now × (a.now.calls ≡ 0) × (b.now.calls ≡ 0) }
        ensures { IsPassOf snap.entry.now a.exit.now × IsPassOf snap.entry.now b.exit.now × (a.exit.now.calls ≤ 2000) × (b.exit.now.calls ≤ 2000) }
    { watch_both(rt, snap, a, b) };
    join_mut(rt, &mut || count_up(rt, snap, w, 2000), &mut read)
}

// Ties both passes, and tells what each finds then.
fn tie_both<R: Wait>(
    rt: &R,
    snap: &Snap,
    w: &mut SnapWriter,
    a: &mut SnapPass,
    b: &mut SnapPass,
) -> Result<[u64; 2], AllocError>
    requires mine { IsWriterOf snap.now w.old × IsPassOf snap.now a.old × IsPassOf snap.now b.old }
    requires calls { (w.old.calls ≤ 2000) × (a.old.calls ≤ 2000) × (b.old.calls ≤ 2000) }
    ensures { IsWriterOf snap.now w.new }
{
    snap.tie(rt, w, a)?;
    snap.tie(rt, w, b)?;
    Ok([watch(rt, snap, a, 1).0, watch(rt, snap, b, 1).0])
}

#[test]
fn two_readers_never_see_the_map_go_back(rt: HostRuntime) -> Result<(), Fail> {
    let (snap, mut w, passes) = Snap::new(&rt, rt.alloc(), 2)?;
    let (mut a, mut b) = both(&snap, passes);
    let (made, fell) = count_and_watch(&rt, &snap, &mut w, &mut a, &mut b);
    let last = tie_both(&rt, &snap, &mut w, &mut a, &mut b);
    snap.finish(&rt, w);
    made?;
    assert_eq!(rt; fell, [false, false]);
    assert_eq!(rt; last?, [2000, 2000]);
    Ok(())
}
