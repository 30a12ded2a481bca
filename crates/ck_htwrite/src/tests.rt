ghost use Rattle.std.specs.Prelude.{◌≡◌, ◌+◌, ◌≤◌, [], length, IfOk};
ghost use Rattle.ck_epoch.specs.State.{state as epochs};
ghost use Rattle.ck_run.specs.Tokens.{table};
ghost use Rattle.ck_epoch.specs.Lists.{Answers};
ghost use Rattle.ck_htlaw.specs.Client.{home_of, table as table_client};
ghost use Rattle.ck_htlaw.specs.Host.{host};
ghost use Rattle.ck_htwrite.specs.State.{Ready};

use crate::{HtClient, HtState, Need, put, remove, set};
use ck_epoch::{Domain, Item, Writer};
use ck_history::{Key, Reply};
use ck_words::Back;
use std::alloc::{AllocError, Global};
use std::test::Fail;

// A table of its own domain, with one reader, and its writer.
fn opened<F: Fn(Item) -> Back + Drop>(
    alloc: Global,
    client: HtClient,
    handler: F,
) -> Result<(Domain<HtClient>, Writer<HtClient, F>, HtState), AllocError>
    requires few { client.arena_log ≤ 24 }
    requires handler { Answers (table_client.retires client) (table_client.home client) (F.pre handler) (F.post handler) }
    ensures token { IfOk result (λ r. table r.1.token ≡ r.0) }
    ensures calls { IfOk result (λ r. r.1.calls ≡ 0) }
    ensures room { IfOk result (λ r. (r.1.room ≡ 64) × (r.1.waiting ≡ []) × ((epochs r.1.token).pending ≡ [])) }
    ensures ready { IfOk result (λ r. Ready (host table_client (λ c. 0) (λ c. c)) r.0.origin r.1 r.2) }
{
    let state = HtState::new(alloc, &client)?;
    let (domain, writer, _passes) = Domain::new(alloc, client, 1, 64, handler)?;
    Ok((domain, writer, state))
}

fn home(item: Item) -> Back
    ensures { result ≡ home_of item }
{
    Back {
        shelf: 0,
        at: item.at,
        log: item.log,
    }
}

// Values of a key that is absent, present, removed, and back again in the slot that it left.
#[test]
fn replies_are_those_of_a_map(rt: HostRuntime) -> Result<(), Fail> {
    let client = HtClient {
        seed: 7,
        arena_log: 8,
    };
    let (domain, mut writer, mut state) = opened(rt.alloc(), client, |item: Item| home(item))?;
    let key = Key::new(1).ok_or("a key")?;
    assert_eq!(rt;
        set(&domain, &mut writer, &mut state, key, 10),
        Ok(Reply::Fresh)
    );
    assert_eq!(rt;
        set(&domain, &mut writer, &mut state, key, 11),
        Ok(Reply::Was(10))
    );
    assert_eq!(rt;
        put(&domain, &mut writer, &mut state, key, 5),
        Ok(Reply::Has(11))
    );
    assert_eq!(rt;
        remove(&domain, &mut writer, &mut state, key),
        Reply::Was(11)
    );
    assert_eq!(rt;
        remove(&domain, &mut writer, &mut state, key),
        Reply::Missing
    );
    assert_eq!(rt;
        put(&domain, &mut writer, &mut state, key, 6),
        Ok(Reply::Fresh)
    );
    assert_eq!(rt;
        remove(&domain, &mut writer, &mut state, key),
        Reply::Was(6)
    );
    assert_eq!(rt; writer.tally(), 7);
    Ok(())
}

// Sets three keys, and tells whether all of them were fresh.
fn three_are_fresh<F>(
    domain: &Domain<HtClient>,
    writer: &mut Writer<HtClient, F>,
    state: &mut HtState,
    keys: (Key, Key, Key),
) -> bool
    requires table { table writer.old.token ≡ domain.now }
    requires calls { writer.old.calls ≤ 20 }
    requires room { length (epochs writer.old.token).pending + length writer.old.waiting ≤ 20 }
    requires large { writer.old.room ≡ 64 }
    requires ready { Ready (host table_client (λ c. 0) (λ c. c)) domain.now.origin writer.old state.old }
    ensures table { table writer.new.token ≡ domain.now }
    ensures calls { writer.new.calls ≤ writer.old.calls + 6 }
    ensures waiting { (writer.new.waiting ≡ writer.old.waiting) × (writer.new.room ≡ writer.old.room) }
    ensures pending { length (epochs writer.new.token).pending ≤ length (epochs writer.old.token).pending + 3 }
    ensures ready { Ready (host table_client (λ c. 0) (λ c. c)) domain.now.origin writer.new state.new }
{
    let first = set(domain, writer, state, keys.0, 10);
    let second = set(domain, writer, state, keys.1, 20);
    let third = set(domain, writer, state, keys.2, 30);
    first == Ok(Reply::Fresh) && second == Ok(Reply::Fresh) && third == Ok(Reply::Fresh)
}

// The key of this number.
fn key(n: u128) -> Result<Key, Fail> {
    Ok(Key::new(n).ok_or("a key")?)
}

// Eight slots take six keys: the seventh comes after a rebuild, and those that were there keep their values. An arena of one region has none
// for a rebuild.
#[test]
fn a_map_that_fills_grows(rt: HostRuntime) -> Result<(), Fail> {
    let (low, mid) = ((key(1)?, key(2)?, key(3)?), (key(4)?, key(5)?, key(6)?));
    let last = key(7)?;
    let client = HtClient {
        seed: 7,
        arena_log: 8,
    };
    let (domain, mut writer, mut state) = opened(rt.alloc(), client, |item: Item| home(item))?;
    assert!(rt; three_are_fresh(&domain, &mut writer, &mut state, low));
    assert!(rt; three_are_fresh(&domain, &mut writer, &mut state, mid));
    assert_eq!(rt;
        put(&domain, &mut writer, &mut state, last, 70),
        Ok(Reply::Fresh)
    );
    assert_eq!(rt; writer.calls(), 8);
    assert_eq!(rt;
        remove(&domain, &mut writer, &mut state, low.2),
        Reply::Was(30)
    );
    assert_eq!(rt;
        remove(&domain, &mut writer, &mut state, last),
        Reply::Was(70)
    );
    Ok(())
}

#[test]
fn a_full_arena_is_told(rt: HostRuntime) -> Result<(), Fail> {
    let (low, mid) = ((key(1)?, key(2)?, key(3)?), (key(4)?, key(5)?, key(6)?));
    let last = key(7)?;
    let client = HtClient {
        seed: 7,
        arena_log: 5,
    };
    let (domain, mut writer, mut state) = opened(rt.alloc(), client, |item: Item| home(item))?;
    assert!(rt; three_are_fresh(&domain, &mut writer, &mut state, low));
    assert!(rt; three_are_fresh(&domain, &mut writer, &mut state, mid));
    let need = Need { shelf: 0, log: 6 };
    assert_eq!(rt; set(&domain, &mut writer, &mut state, last, 70), Err(need));
    assert_eq!(rt;
        remove(&domain, &mut writer, &mut state, mid.2),
        Reply::Was(30)
    );
    assert_eq!(rt; writer.tally(), 7);
    Ok(())
}
