ghost use Rattle.std.specs.Prelude.{◌≡◌, ◌+◌, ◌<◌, ◌≤◌, ◌^◌, ◌==◌, true, [], length, IfOk};
ghost use Rattle.ck_run.specs.Tokens.{table};
ghost use Rattle.ck_run.specs.Ends.{fresh};
ghost use Rattle.ck_words.specs.declared.back.Back.{Back as BackOf};
ghost use Rattle.ck_epoch.specs.declared.item.Item.{Item as ItemOf};
ghost use Rattle.ck_epoch.specs.State.{state, depth};
ghost use Rattle.ck_epoch.specs.Lists.{Answers};
ghost use Rattle.ck_epoch.specs.Closing.{AreOpening};

use crate::{Client, Domain, Item, Pass, Poll, Within, Writer};
use ck_words::Back;
use std::alloc::{AllocError, Global};
use std::marker::Brand;
use std::sync::Wait;
use std::test::Fail;
use std::thread::join_mut;

// One word that the writer alone stores, and that readers load within a section. Its items are blocks.
#[derive(Drop)]
pub(crate) struct Counter;

impl Client for Counter {
    ghost use Rattle.std.specs.Prelude.{◌≡◌, ℕ, ◌+◌, ◌<◌, ◌==◌, true, List, [], ◌∷◌, All};
    ghost use Rattle.std.proofs.Common.{le_refl, subst, sym};
    ghost use Rattle.std.proofs.lemmas.List.Elements.{All-nil};
    ghost use Rattle.ck_run.specs.declared.account.Entry.{Entry};
    ghost use Rattle.ck_run.specs.declared.account.Step.TheVariants.{Load};
    ghost use Rattle.ck_run.specs.Range.{own};
    ghost use Rattle.ck_run.proofs.Own.{own-append, own_outside};

    ghost meaning = { record {
      size = λ c. 1;
      first = λ c at. 0;
      guarded = λ c at. true;
      follows = λ first origin n es. 0 < n → All (λ (e : Entry). (found : ℕ) × (e.step ≡ Load first found)) (own first (first + 1) es);
      retires = λ c item. item.log == 3;
      home = λ c item. record { shelf = 1; at = item.at; log = item.log };
      Update = Entry;
      log = λ first origin es. own first (first + 1) es;
      answered = λ first origin es. 0;
    } };

    fn words(&self) -> u64 {
        1
    }

    fn first(&self, _at: u64) -> u64 {
        0
    }

    ghost starts = { λ first origin placed n other. All-nil (λ (e : Entry). (found : ℕ) × (e.step ≡ Load first found)) };

    ghost passes = { λ first origin n es e follows others other.
        subst (All (λ (x : Entry). (found : ℕ) × (x.step ≡ Load first found))) (sym (own_outside first (first + 1) es e others.0)) (follows other) };

    ghost grows = { λ first origin es e. (own first (first + 1) (e ∷ []), own-append first (first + 1) es (e ∷ [])) };

    ghost rises = { λ first origin es e. le_refl 0 };
}

impl Within<Counter> for Counter {
    ghost use Rattle.ck_epoch.specs.Itself.{itself};

    ghost place = { λ c. 0 };

    ghost part = { λ c. c };

    fn base(&self) -> u64 {
        0
    }

    fn inner(&self) -> &Counter {
        self
    }

    ghost within = { itself Self.meaning };
}

pub(crate) fn home(item: Item) -> Back
    ensures { result ≡ record { shelf = 1; at = item.at; log = item.log } }
{
    Back {
        shelf: Back::BLOCKS,
        at: item.at,
        log: item.log,
    }
}

pub(crate) const BLOCK: Item = Item { at: 8, log: 3 };

// The answer of a poll that found the first record active with this epoch, and dispatched nothing.
pub(crate) fn blocked_at(epoch: u64) -> Poll {
    Poll::Blocked {
        n: 0,
        rec: 0,
        epoch,
    }
}

/// A domain with one record: its writer, which has room for four items and answers, and its pass.
pub(crate) fn one_reader<C: Client + Drop, F: Fn(Item) -> Back + Drop>(
    alloc: Global,
    client: C,
    handler: F,
) -> Result<(Domain<C>, Writer<C, F>, Pass<C>), AllocError>
    requires size { C.meaning.size client ≤ 2 ^ 33 }
    requires handler { Answers (C.meaning.retires client) (C.meaning.home client) (F.pre handler) (F.post handler) }
    ensures about { IfOk result (λ r. r.0.origin.config ≡ record { client = client; records = 1 }) }
    ensures words { IfOk result (λ r. AreOpening C.meaning r.0.origin) }
    ensures writer { IfOk result (λ r. r.1 ≡ record { token = fresh r.0 0; calls = 0; waiting = []; room = 4; handler = handler; tally = 0 }) }
    ensures pass { IfOk result (λ r. r.2 ≡ record { token = fresh r.0 1; calls = 0; tally = 0 }) }
{
    let (domain, writer, mut passes) = Domain::new(alloc, client, 1, 4, handler)?;
    let pass = passes.pop().unwrap();
    Ok((domain, writer, pass))
}

#[test]
fn gives_back_once_the_older_section_ended(rt: HostRuntime) -> Result<(), Fail> {
    let (domain, mut writer, mut pass) = one_reader(rt.alloc(), Counter, home)?;
    domain.begin(&mut pass);
    domain.call::<Brand, _>(&mut writer, BLOCK);
    assert_eq!(rt; domain.poll(&mut writer), Poll::Moved { n: 0, rec: 0 });
    assert_eq!(rt; domain.poll(&mut writer), blocked_at(4));
    domain.end(&mut pass);
    assert_eq!(rt; domain.poll(&mut writer), Poll::Clear { n: 1 });
    assert_eq!(rt; (writer.pending(), writer.waiting()), (0, 1));
    assert_eq!(rt; domain.next_back(&mut writer), Some(home(BLOCK)));
    assert_eq!(rt; domain.next_back(&mut writer), None);
    Ok(())
}

#[test]
fn waits_for_the_outermost_section(rt: HostRuntime) -> Result<(), Fail> {
    let (domain, mut writer, mut pass) = one_reader(rt.alloc(), Counter, home)?;
    domain.begin(&mut pass);
    domain.begin(&mut pass);
    domain.call::<Brand, _>(&mut writer, BLOCK);
    assert_eq!(rt; domain.poll(&mut writer), Poll::Moved { n: 0, rec: 0 });
    assert_eq!(rt; domain.poll(&mut writer), blocked_at(4));
    domain.end(&mut pass);
    assert_eq!(rt; (pass.rec(), pass.depth(), pass.calls()), (0, 1, 3));
    assert_eq!(rt; domain.poll(&mut writer), blocked_at(4));
    Ok(())
}

#[test]
fn gives_back_beside_a_younger_section(rt: HostRuntime) -> Result<(), Fail> {
    let (domain, mut writer, mut pass) = one_reader(rt.alloc(), Counter, home)?;
    domain.begin(&mut pass);
    domain.call::<Brand, _>(&mut writer, BLOCK);
    assert_eq!(rt; domain.poll(&mut writer), Poll::Moved { n: 0, rec: 0 });
    domain.end(&mut pass);
    domain.begin(&mut pass);
    assert_eq!(rt; domain.poll(&mut writer), Poll::Moved { n: 1, rec: 0 });
    writer.set_tally(7);
    assert_eq!(rt; (writer.tally(), writer.calls()), (7, 4));
    Ok(())
}
