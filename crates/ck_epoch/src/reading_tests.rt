ghost use Rattle.std.specs.Prelude.{◌≡◌, ℕ, ◌+◌, ◌*◌, ◌<◌, ◌≤◌, ◌^◌, ◌==◌};
ghost use Rattle.ck_run.specs.Tokens.{table};
ghost use Rattle.ck_epoch.specs.State.{depth};
ghost use Rattle.ck_epoch.specs.Lists.{Answers};

use crate::tests::{Counter, home};
use crate::{Domain, Item, Pass, Writer};
use ck_words::Back;
use std::marker::Brand;
use std::test::Fail;
use std::thread::{Threads, join_mut};

fn count_at(domain: &Domain<Counter>, pass: &mut Pass<Counter>) -> u64
    requires table { table pass.old.token ≡ domain.now }
    requires inside { 0 < depth pass.old.token }
    ensures same { (table pass.new.token ≡ table pass.old.token) × (depth pass.new.token ≡ depth pass.old.token) × (pass.new.calls ≡ pass.old.calls) }
{
    domain.read::<Brand>(pass, 0)
}

// Loads the counter in so many sections. Did it never fall?
fn read_in_sections(domain: &Domain<Counter>, pass: &mut Pass<Counter>, times: u64) -> bool
    requires table { table pass.old.token ≡ domain.now }
    requires outside { depth pass.old.token ≡ 0 }
    requires calls { pass.old.calls + 2 * times < 2 ^ 32 }
    ensures table { table pass.new.token ≡ table pass.old.token }
{
    let mut last = 0;
    let mut rises = true;
    for _k in 0..times {
        domain.begin(pass);
        let count = count_at(domain, pass);
        domain.end(pass);
        rises = rises && last <= count;
        last = count;
    }
    rises
}

// Two readers in two threads.
fn read_both<R: Threads>(
    rt: &R,
    domain: &Domain<Counter>,
    first: &mut Pass<Counter>,
    second: &mut Pass<Counter>,
) -> (bool, bool)
    requires tables { (table first.old.token ≡ domain.now) × (table second.old.token ≡ domain.now) }
    requires outside { (depth first.old.token ≡ 0) × (depth second.old.token ≡ 0) }
    requires calls { (first.old.calls ≡ 0) × (second.old.calls ≡ 0) }
    ensures tables { (table first.new.token ≡ table first.old.token) × (table second.new.token ≡ table second.old.token) }
{
    join_mut(
        rt,
        &mut || read_in_sections(domain, first, 500),
        &mut || read_in_sections(domain, second, 500),
    )
}

// Counts up, retires a block at each count as long as there is room, polls, and takes at most one block back. How many were given back?
fn count_up<F: Fn(Item) -> Back>(
    domain: &Domain<Counter>,
    writer: &mut Writer<Counter, F>,
    times: u64,
) -> u64
    requires table { table writer.old.token ≡ domain.now }
    requires calls { writer.old.calls + 2 * times < 2 ^ 32 }
    requires room { 8 ≤ writer.old.room }
    requires handler { Answers (λ i. i.log == 3) (λ i. record { shelf = 1; at = i.at; log = i.log }) (F.pre writer.old.handler) (F.post writer.old.handler) }
    ensures same { (table writer.new.token ≡ table writer.old.token) × (writer.new.handler ≡ writer.old.handler) }
    ensures calls { writer.new.calls ≤ writer.old.calls + 2 * times }
{
    let mut given = 0;
    for k in 0..times {
        domain.write::<Brand, F>(writer, 0, k + 1);
        if writer.pending() < 4 && writer.waiting() < 4 {
            domain.call::<Brand, F>(
                writer,
                Item {
                    at: 8 * (k % 16),
                    log: 3,
                },
            );
        }
        domain.poll(writer);
        if domain.next_back(writer).is_some() {
            given += 1;
        }
    }
    given
}

#[test]
fn two_readers_beside_the_writer(rt: HostRuntime) -> Result<(), Fail> {
    let (domain, mut writer, mut passes) = Domain::new(
        rt.alloc(),
        Counter,
        2,
        8,
        |item: Item| home(item),
    )?;
    let mut second = passes.pop().unwrap();
    let mut first = passes.pop().unwrap();
    let (_given, rises) = join_mut(
        &rt,
        &mut ||
            requires { (table writer.token ≡ domain) × (writer.calls ≡ 0) × (8 ≤ writer.room) }
        { count_up(&domain, &mut writer, 300) },
        &mut || read_both(&rt, &domain, &mut first, &mut second),
    );
    assert_eq!(rt; rises, (true, true));
    domain.poll(&mut writer);
    assert_eq!(rt; writer.pending(), 0);
    passes.push(first)?;
    passes.push(second)?;
    let closed = domain.close(writer, passes);
    assert_eq!(rt; closed.words.as_slice(), [300].as_slice());
    Ok(())
}
