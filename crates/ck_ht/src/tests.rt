ghost use Rattle.std.specs.Prelude.{true, ◌≡◌, ◌+◌, ◌*◌, ◌<◌, ◌≤◌, ◌^◌};
ghost use Rattle.ck_run.specs.Tokens.{table};
ghost use Rattle.ck_epoch.specs.Lists.{Answers};
ghost use Rattle.ck_epoch.specs.State.{depth};
ghost use Rattle.ck_htlaw.specs.Client.{home_of};
ghost use Rattle.ck_ht.specs.Ends.{IsPassReady};

use crate::{Ht, HtPass, HtWriter, home};
use ck_epoch::Item;
use ck_history::{Busy, Key, Look, Reply, Update};
use ck_words::Back;
use std::alloc::{AllocError, Global};
use std::sync::Wait;
use std::test::Fail;

#[test]
fn an_empty_table_has_no_key(rt: HostRuntime) -> Result<(), Fail> {
    let (table, mut writer, mut passes) = Ht::new(rt.alloc(), 7, 1, |item: Item| home(item))?;
    let mut pass = passes.pop().unwrap();
    let key = Key::new(5).unwrap();
    assert_eq!(rt; table.reached(&mut pass, 0), Ok(()));
    table.begin(&mut pass);
    assert_eq!(rt; table.look(&mut pass, key), Look::Absent);
    assert_eq!(rt; table.get(&rt, &mut pass, key), None);
    table.end(&mut pass);
    table.note(&mut pass);
    table.mark(&mut writer);
    assert_eq!(rt; table.answered(&mut writer, 0), 2);
    assert_eq!(rt; table.reached(&mut pass, 1), Err(0));
    assert_eq!(rt; table.remove(&mut writer, key), Reply::Missing);
    assert_eq!(rt; table.barrier(&rt, &mut writer), 0);
    assert_eq!(rt; table.slots(&writer), 8);
    assert_eq!(rt; table.free_words(&writer), 8_388_576);
    table.mark(&mut writer);
    assert_eq!(rt; table.reached(&mut pass, 1), Ok(()));
    Ok(())
}

#[test]
fn a_table_that_is_closed_at_once_has_its_opening_root(rt: HostRuntime) -> Result<(), Fail> {
    let (table, writer, passes) = Ht::new(rt.alloc(), 7, 2, |item: Item| home(item))?;
    let closed = table.close(writer, passes);
    assert_eq!(rt; closed.words.first(), Some(&8_388_643));
    Ok(())
}

// Makes the update.
pub(crate) fn make<F: Fn(Item) -> Back>(
    ht: &Ht,
    w: &mut HtWriter<F>,
    update: Update<Key>,
) -> Result<Reply, Busy>
    requires table { table w.old.writer.token ≡ ht.now }
    requires arena { ht.now.origin.config.client.client.arena_log ≡ 23 }
    requires calls { w.old.writer.calls < 2 ^ 32 }
    requires handler { Answers (λ item. true) (λ item. home_of item) (F.pre w.old.writer.handler) (F.post w.old.writer.handler) }
    ensures table { table w.new.writer.token ≡ table w.old.writer.token }
    ensures handler { w.new.writer.handler ≡ w.old.writer.handler }
    ensures calls { w.new.writer.calls ≤ w.old.writer.calls + 3 }
{
    match update {
        Update::Set(key, value) => ht.set(w, key, value),
        Update::Put(key, value) => ht.put(w, key, value),
        Update::Del(key) => Ok(ht.remove(w, key)),
        Update::Tidy => ht.tidy(w),
    }
}

// Looks at the key, in a section of its own.
fn look_once<R: Wait>(rt: &R, ht: &Ht, pass: &mut HtPass, key: Key) -> Option<u64>
    requires table { table pass.old.token ≡ ht.now }
    requires ready { IsPassReady ht.now.origin pass.old }
    requires outside { depth pass.old.token ≡ 0 }
    requires calls { pass.old.calls < 2 ^ 32 }
    ensures table { table pass.new.token ≡ table pass.old.token }
    ensures ready { IsPassReady ht.now.origin pass.new }
    ensures outside { depth pass.new.token ≡ 0 }
    ensures calls { pass.new.calls ≤ pass.old.calls + 3 }
{
    ht.begin(pass);
    let value = ht.get(rt, pass, key);
    ht.end(pass);
    value
}

// The update of the key with this number, from 0.
fn nth_of(key: Key, i: u64) -> Update<Key> {
    match i {
        0 => Update::Set(key, 10),
        1 => Update::Set(key, 11),
        2 => Update::Put(key, 5),
        _ => Update::Del(key),
    }
}

// Makes the four updates of the key, and looks at it after each.
fn look_after_each<F: Fn(Item) -> Back, R: Wait>(
    rt: &R,
    alloc: Global,
    ht: &Ht,
    w: &mut HtWriter<F>,
    pass: &mut HtPass,
    key: Key,
) -> Result<Vec<(Result<Reply, Busy>, Option<u64>)>, AllocError>
    requires table { table w.old.writer.token ≡ ht.now }
    requires arena { ht.now.origin.config.client.client.arena_log ≡ 23 }
    requires calls { w.old.writer.calls ≡ 0 }
    requires handler { Answers (λ item. true) (λ item. home_of item) (F.pre w.old.writer.handler) (F.post w.old.writer.handler) }
    requires pass { (table pass.old.token ≡ ht.now) × IsPassReady ht.now.origin pass.old }
    requires outside { depth pass.old.token ≡ 0 }
    requires looks { pass.old.calls ≡ 0 }
{
    let mut answers = Vec::new(alloc);
    for i in 0..4 {
        let reply = make(ht, w, nth_of(key, i));
        let value = look_once(rt, ht, pass, key);
        answers.push((reply, value))?;
    }
    Ok(answers)
}

#[test]
fn each_look_finds_what_was_put_last(rt: HostRuntime) -> Result<(), Fail> {
    let alloc = rt.alloc();
    let (table, mut writer, mut passes) = Ht::new(alloc, 0, 1, |item: Item| home(item))?;
    let mut pass = passes.pop().unwrap();
    let key = Key::new(1).unwrap();
    let answers = look_after_each(&rt, alloc, &table, &mut writer, &mut pass, key)?;
    assert_eq!(rt; answers.get(0), Some(&(Ok(Reply::Fresh), Some(10))));
    assert_eq!(rt; answers.get(1), Some(&(Ok(Reply::Was(10)), Some(11))));
    assert_eq!(rt; answers.get(2), Some(&(Ok(Reply::Has(11)), Some(11))));
    assert_eq!(rt; answers.get(3), Some(&(Ok(Reply::Was(11)), None)));
    Ok(())
}

// Sets each of the first keys and removes it again, and counts those that were fresh and then had this value.
fn come_and_go<F: Fn(Item) -> Back>(ht: &Ht, w: &mut HtWriter<F>, keys: u64) -> u64
    requires table { table w.old.writer.token ≡ ht.now }
    requires arena { ht.now.origin.config.client.client.arena_log ≡ 23 }
    requires calls { w.old.writer.calls + 8 * keys < 2 ^ 32 }
    requires handler { Answers (λ item. true) (λ item. home_of item) (F.pre w.old.writer.handler) (F.post w.old.writer.handler) }
    ensures table { table w.new.writer.token ≡ table w.old.writer.token }
    ensures handler { w.new.writer.handler ≡ w.old.writer.handler }
    ensures calls { w.new.writer.calls ≤ w.old.writer.calls + 8 * keys }
{
    let mut came_and_went = 0;
    for i in 0..keys {
        let key = Key::new(u128::from(i) + 1).unwrap();
        let set = ht.set(w, key, 1);
        let removed = ht.remove(w, key);
        if set == Ok(Reply::Fresh) && removed == Reply::Was(1) {
            came_and_went += 1;
        }
    }
    came_and_went
}

#[test]
fn tombstones_never_fill_a_table(rt: HostRuntime) -> Result<(), Fail> {
    let (table, mut writer, _passes) = Ht::new(rt.alloc(), 0, 1, |item: Item| home(item))?;
    assert_eq!(rt; come_and_go(&table, &mut writer, 100_000), 100_000);
    let _regions = table.barrier(&rt, &mut writer);
    assert_eq!(rt; table.slots(&writer), 8);
    assert_eq!(rt; table.free_words(&writer), 8_388_576);
    assert_eq!(rt; table.entries(rt.alloc(), &writer)?.len(), 0);
    Ok(())
}

// Sets the key, removes it and tidies, so often, and counts the tidies that were made. The last tidy's answer stands beside.
fn tidy_often<F: Fn(Item) -> Back>(
    ht: &Ht,
    w: &mut HtWriter<F>,
    key: Key,
    rounds: u64,
) -> (u64, Option<Result<Reply, Busy>>)
    requires table { table w.old.writer.token ≡ ht.now }
    requires arena { ht.now.origin.config.client.client.arena_log ≡ 23 }
    requires calls { w.old.writer.calls + 8 * rounds < 2 ^ 32 }
    requires handler { Answers (λ item. true) (λ item. home_of item) (F.pre w.old.writer.handler) (F.post w.old.writer.handler) }
    ensures table { table w.new.writer.token ≡ table w.old.writer.token }
    ensures handler { w.new.writer.handler ≡ w.old.writer.handler }
    ensures calls { w.new.writer.calls ≤ w.old.writer.calls + 8 * rounds }
{
    let mut tidied = 0;
    let mut last = None;
    for _k in 0..rounds {
        let _set = ht.set(w, key, 1);
        let _removed = ht.remove(w, key);
        let answer = ht.tidy(w);
        if answer == Ok(Reply::Tidied) {
            tidied += 1;
        }
        last = Some(answer);
    }
    (tidied, last)
}

// The arena has 262,144 regions of a map of eight slots. One is the map's, and no other is given back while the section stands.
#[test]
fn an_open_section_keeps_what_was_retired(rt: HostRuntime) -> Result<(), Fail> {
    let (table, mut writer, mut passes) = Ht::new(rt.alloc(), 0, 1, |item: Item| home(item))?;
    let mut pass = passes.pop().unwrap();
    let key = Key::new(1).unwrap();
    table.begin(&mut pass);
    let busy = Busy { rec: 0, epoch: 4 };
    assert_eq!(rt;
        tidy_often(&table, &mut writer, key, 262_144),
        (262_143, Some(Err(busy)))
    );
    table.end(&mut pass);
    assert_eq!(rt; table.tidy(&mut writer), Ok(Reply::Tidied));
    Ok(())
}
