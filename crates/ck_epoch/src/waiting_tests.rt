ghost use Rattle.std.specs.Prelude.{◌≡◌, ◌+◌, ◌<◌, ◌^◌, length};
ghost use Rattle.ck_run.specs.Tokens.{table};
ghost use Rattle.ck_epoch.specs.State.{state, depth};

use crate::tests::{BLOCK, Counter, blocked_at, home, one_reader};
use crate::{Domain, Item, Pass, Poll};
use crossbeam_utils::Backoff;
use std::marker::Brand;
use std::sync::Wait;
use std::sync::atomic::AtomicU64;
use std::sync::atomic::Ordering::SeqCst;
use std::test::Fail;
use std::thread::join_mut;

#[test]
fn barrier_gives_back_what_is_pending(rt: HostRuntime) -> Result<(), Fail> {
    let (domain, mut writer, mut pass) = one_reader(rt.alloc(), Counter, home)?;
    domain.call::<Brand, _>(&mut writer, BLOCK);
    assert_eq!(rt; domain.barrier(&rt, &mut writer), 1);
    assert_eq!(rt; domain.next_back(&mut writer), Some(home(BLOCK)));
    assert_eq!(rt; domain.next_back(&mut writer), None);
    domain.begin(&mut pass);
    domain.call::<Brand, _>(&mut writer, Item { at: 16, log: 3 });
    assert_eq!(rt; domain.poll(&mut writer), Poll::Moved { n: 0, rec: 0 });
    assert_eq!(rt; domain.poll(&mut writer), blocked_at(6));
    Ok(())
}

// Holds a section open for a while, and tells when it is about to end it.
fn hold_open(
    domain: &Domain<Counter>,
    pass: &mut Pass<Counter>,
    inside: &AtomicU64,
    over: &AtomicU64,
)
    requires table { table pass.old.token ≡ domain.now }
    requires closed { (depth pass.old.token ≡ 0) × (pass.old.calls < 2 ^ 16) }
{
    domain.begin(pass);
    inside.store(1, SeqCst);
    for _ in 0..20_000u64 {
        let _inside = inside.load(SeqCst);
    }
    over.store(1, SeqCst);
    domain.end(pass);
}

fn until_one<R: Wait>(rt: &R, flag: &AtomicU64) {
    let backoff = Backoff::new();
    for _ in rt.forever() {
        if flag.load(SeqCst) == 1 {
            return;
        }
        backoff.snooze();
    }
}

#[test]
fn barrier_waits_for_the_open_section(rt: HostRuntime) -> Result<(), Fail> {
    let (domain, mut writer, mut pass) = one_reader(rt.alloc(), Counter, |item: Item| home(item))?;
    let inside = AtomicU64::new(0);
    let over = AtomicU64::new(0);
    let (_, given) = join_mut(
        &rt,
        &mut || hold_open(&domain, &mut pass, &inside, &over),
        &mut ||
            requires writer { (table writer.token ≡ domain) × (writer.calls < 2 ^ 16) }
            requires room { length (state writer.token).pending + length writer.waiting < writer.room }
        {
            until_one(&rt, &inside);
            domain.call::<Brand, _>(&mut writer, BLOCK);
            let count = domain.barrier(&rt, &mut writer);
            (count, domain.next_back(&mut writer), over.load(SeqCst))
        },
    );
    assert_eq!(rt; given, (1, Some(home(BLOCK)), 1));
    Ok(())
}

#[test]
fn synchronize_returns_where_no_section_is_open(rt: HostRuntime) -> Result<(), Fail> {
    let (domain, mut writer, mut pass) = one_reader(rt.alloc(), Counter, home)?;
    domain.call::<Brand, _>(&mut writer, BLOCK);
    domain.synchronize(&rt, &mut writer);
    assert_eq!(rt;
        (writer.pending(), writer.waiting(), writer.calls()),
        (1, 0, 2)
    );
    domain.begin(&mut pass);
    // The global epoch is 6 now, so the first poll dispatches what was retired at 4.
    assert_eq!(rt; domain.poll(&mut writer), Poll::Moved { n: 1, rec: 0 });
    assert_eq!(rt; domain.poll(&mut writer), blocked_at(6));
    Ok(())
}

#[test]
fn synchronize_waits_for_the_open_section(rt: HostRuntime) -> Result<(), Fail> {
    let (domain, mut writer, mut pass) = one_reader(rt.alloc(), Counter, |item: Item| home(item))?;
    let inside = AtomicU64::new(0);
    let over = AtomicU64::new(0);
    let (_, ended) = join_mut(
        &rt,
        &mut || hold_open(&domain, &mut pass, &inside, &over),
        &mut ||
            requires writer { (table writer.token ≡ domain) × (writer.calls < 2 ^ 16) }
        {
            until_one(&rt, &inside);
            domain.synchronize(&rt, &mut writer);
            over.load(SeqCst)
        },
    );
    assert_eq!(rt; ended, 1);
    Ok(())
}
