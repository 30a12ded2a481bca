ghost use Rattle.std.specs.Prelude.{◌≡◌, ◌+◌, ◌-◌, ◌*◌, ◌<◌, ◌≤◌, ◌^◌, IfOk};
ghost use Rattle.ck_run.specs.Ends.{fresh};
ghost use Rattle.ck_run.specs.Tokens.{table};
ghost use Rattle.ck_epoch.specs.State.{depth};
ghost use Rattle.ck_epoch.specs.Lists.{Answers};
ghost use Rattle.ck_arraylaw.specs.Client.{is_region, home_of};
ghost use Rattle.ck_array.specs.Ends.{IsPassReady};

use crate::{Array, ArrayPass, ArrayWriter, home};
use ck_epoch::Item;
use ck_history::{Busy, EditReply, MOST_MEMBERS};
use ck_words::Back;
use std::alloc::{AllocError, Global};
use std::test::Fail;

// An array with one reader.
fn one_reader<F: Fn(Item) -> Back + Drop>(
    alloc: Global,
    handler: F,
) -> Result<(Array, ArrayWriter<F>, ArrayPass), AllocError>
    requires handler { Answers is_region home_of (F.pre handler) (F.post handler) }
    ensures writer { IfOk result (λ r. (table r.1.writer.token ≡ r.0) × (r.1.writer.calls ≡ 0) × (r.1.writer.handler ≡ handler)) }
    ensures pass { IfOk result (λ r. (r.2 ≡ record { token = fresh r.0 1; calls = 0; tally = 0 }) × IsPassReady r.0.origin r.2) }
{
    let (array, writer, mut passes) = Array::new(alloc, 1, handler)?;
    let pass = passes.pop().unwrap();
    Ok((array, writer, pass))
}

// Commits so often, and tells how many of these commits were made.
fn commits<F: Fn(Item) -> Back>(array: &Array, w: &mut ArrayWriter<F>, n: u64) -> u64
    requires table { table w.old.writer.token ≡ array.now }
    requires calls { w.old.writer.calls + 3 * n < 2 ^ 32 }
    requires handler { Answers is_region home_of (F.pre w.old.writer.handler) (F.post w.old.writer.handler) }
    ensures table { table w.new.writer.token ≡ table w.old.writer.token }
    ensures calls { w.new.writer.calls ≤ w.old.writer.calls + 3 * n }
    ensures handler { w.new.writer.handler ≡ w.old.writer.handler }
{
    let mut made = 0;
    for i in 0..n {
        let _before = i;
        if array.commit(w).is_ok() {
            made += 1;
        }
    }
    made
}

// Adds 3 and 4, and drops 3.
fn three_edits<F>(array: &Array, w: &mut ArrayWriter<F>) -> (EditReply, EditReply, EditReply)
    requires table { table w.old.writer.token ≡ array.now }
    requires calls { w.old.writer.calls < 2 ^ 32 }
    ensures table { table w.new.writer.token ≡ table w.old.writer.token }
    ensures calls { w.new.writer.calls ≤ w.old.writer.calls + 3 }
    ensures handler { w.new.writer.handler ≡ w.old.writer.handler }
{
    let three = array.add(w, 3);
    let four = array.add(w, 4);
    let dropped = array.drop_one(w, 3);
    (three, four, dropped)
}

// What a read gives.
pub(crate) fn members(
    alloc: Global,
    array: &Array,
    pass: &mut ArrayPass,
) -> Result<Vec<u64>, AllocError>
    requires table { table pass.old.token ≡ array.now }
    requires section { 0 < depth pass.old.token }
    requires ready { IsPassReady array.now.origin pass.old }
    requires calls { pass.old.calls < 2 ^ 40 }
    ensures table { table pass.new.token ≡ table pass.old.token }
    ensures ready { IsPassReady array.now.origin pass.new }
    ensures calls { pass.new.calls ≤ pass.old.calls + 1 }
    ensures depth { depth pass.new.token ≡ depth pass.old.token }
{
    let mut members = Vec::with_capacity(alloc, MOST_MEMBERS as usize)?;
    let _length = array.all(pass, &mut members);
    Ok(members)
}

#[test]
fn a_reader_is_given_the_list_as_it_was_committed(rt: HostRuntime) -> Result<(), Fail> {
    let (array, mut writer, mut pass) = one_reader(rt.alloc(), |item: Item| home(item))?;
    let replies = three_edits(&array, &mut writer);
    array.begin(&mut pass);
    let before = members(rt.alloc(), &array, &mut pass)?;
    let committed = array.commit(&mut writer);
    let after = members(rt.alloc(), &array, &mut pass)?;
    array.end(&mut pass);
    assert_eq!(rt;
        replies,
        (EditReply::Added, EditReply::Added, EditReply::Dropped)
    );
    assert_eq!(rt; committed, Ok(EditReply::Committed));
    assert_eq!(rt; before.as_slice(), [].as_slice());
    assert_eq!(rt; after.as_slice(), [4].as_slice());
    Ok(())
}

#[test]
fn a_section_that_stays_open_makes_the_writer_busy(rt: HostRuntime) -> Result<(), Fail> {
    let (array, mut writer, mut pass) = one_reader(rt.alloc(), |item: Item| home(item))?;
    array.begin(&mut pass);
    let made = commits(&array, &mut writer, 4_095);
    let once = array.commit(&mut writer);
    let again = array.commit(&mut writer);
    array.end(&mut pass);
    let ended = array.commit(&mut writer);
    assert_eq!(rt; made, 4_095);
    assert_eq!(rt; once, Err(Busy { rec: 0, epoch: 4 }));
    assert_eq!(rt; again, Err(Busy { rec: 0, epoch: 4 }));
    assert_eq!(rt; ended, Ok(EditReply::Committed));
    Ok(())
}
