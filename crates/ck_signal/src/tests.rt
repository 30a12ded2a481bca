ghost use Rattle.std.specs.Prelude.{◌≡◌, ◌+◌, ◌<◌, ◌^◌, length, IfOk};
ghost use Rattle.ck_run.specs.Tokens.{table};
ghost use Rattle.ck_run.specs.Ends.{fresh};
ghost use Rattle.ck_signal.specs.Told.{writer_log, pass_answers};
ghost use Rattle.ck_epoch.specs.State.{records_of};
ghost use Rattle.ck_signal.specs.Signals.{readers};

use crate::{Signals, answered, mark, note, reached};
use ck_epoch::{Client, Domain, Item, Pass, Within, Writer};
use ck_words::Back;
use std::alloc::{AllocError, Global};
use std::marker::Brand;
use std::test::Fail;
use std::thread::join_mut;

// One word. Each step of the writer on it is an update, and each step of a reader on it an answer.
#[derive(Drop)]
struct Counter;

impl Client for Counter {
    ghost use Rattle.std.proofs.Common.{ℕ, ◌+◌, ◌≤◌, false, [], ◌∷◌, length, length-append, le-add_right, sym, ap, ◌∙◌, subst};
    ghost use Rattle.ck_run.specs.declared.account.Entry.{Entry};
    ghost use Rattle.ck_run.specs.Range.{own};
    ghost use Rattle.ck_run.proofs.Own.{own-append};

    ghost meaning = { record {
      size = λ c. 1;
      first = λ c at. 0;
      guarded = λ c at. false;
      follows = λ first origin n es. Unit {0};
      retires = λ c item. false;
      home = λ c item. record { shelf = 0; at = item.at; log = item.log };
      Update = Entry;
      log = λ first origin es. own first (first + 1) es;
      answered = λ first origin es. length (own first (first + 1) es);
    } };

    ghost starts = { λ first origin placed n. tt };

    ghost passes = { λ first origin n es e follows others. tt };

    ghost grows = { λ first origin es e. (own first (first + 1) (e ∷ []), own-append first (first + 1) es (e ∷ [])) };

    ghost rises = { λ first origin es e. subst (λ (n : ℕ). length (own first (first + 1) es) ≤ n) (sym (ap length (own-append first (first + 1) es (e ∷ [])) ∙ length-append (own first (first + 1) es) (own first (first + 1) (e ∷ [])))) (le-add_right (length (own first (first + 1) es)) (length (own first (first + 1) (e ∷ [])))) };

    fn words(&self) -> u64 {
        1
    }

    fn first(&self, _at: u64) -> u64 {
        0
    }
}

impl Within<Counter> for Counter {
    ghost use Rattle.ck_epoch.specs.Itself.{itself};

    ghost place = { λ c. 0 };

    ghost part = { λ c. c };

    fn base(&self) -> u64 {
        0
    }

    fn inner(&self) -> &Counter {
        self
    }

    ghost within = { itself Self.meaning };
}

// Makes an update, and marks it.
fn update<F>(domain: &Domain<Signals<Counter>>, writer: &mut Writer<Signals<Counter>, F>)
    requires table { table writer.old.token ≡ domain.now }
    requires calls { writer.old.calls < 2 ^ 32 }
    requires tally { (writer.old.tally ≡ length (writer_log ⟦<Counter as Client>⟧.meaning writer.old.token)) × (writer.old.tally < 2 ^ 32) }
    ensures { table writer.new.token ≡ table writer.old.token }
{
    let updates = writer.tally() + 1;
    domain.write::<Brand, F>(writer, 0, updates);
    writer.set_tally(updates);
    mark(domain, writer);
}

// Gives an answer, and notes it.
fn look(domain: &Domain<Signals<Counter>>, pass: &mut Pass<Signals<Counter>>)
    requires table { table pass.old.token ≡ domain.now }
    requires records { records_of domain.now.origin ≡ readers domain.now.origin }
    requires calls { pass.old.calls < 2 ^ 32 }
    requires tally { (pass.old.tally ≡ pass_answers ⟦<Counter as Client>⟧.meaning pass.old.token) × (pass.old.tally < 2 ^ 32) }
    ensures { table pass.new.token ≡ table pass.old.token }
{
    let _found = domain.read::<Brand>(pass, 0);
    let answers = pass.tally() + 1;
    pass.set_tally(answers);
    note(domain, pass);
}

fn home(item: Item) -> Back {
    Back {
        shelf: 0,
        at: item.at,
        log: item.log,
    }
}

/// A domain of a counter with signals and one record: its writer and its pass.
fn one_reader<F: Fn(Item) -> Back + Drop>(
    alloc: Global,
    handler: F,
) -> Result<
    (
        Domain<Signals<Counter>>,
        Writer<Signals<Counter>, F>,
        Pass<Signals<Counter>>,
    ),
    AllocError,
>
    ensures about { IfOk result (λ r. (r.0.origin.config.records ≡ 1) × (r.0.origin.config.client.records ≡ 1)) }
    ensures writer { IfOk result (λ r. (r.1.token ≡ fresh r.0 0) × (r.1.calls ≡ 0) × (r.1.tally ≡ 0)) }
    ensures pass { IfOk result (λ r. (r.2.token ≡ fresh r.0 1) × (r.2.calls ≡ 0) × (r.2.tally ≡ 0)) }
{
    let signals = Signals::new(Counter, 1);
    let (domain, writer, mut passes) = Domain::new(alloc, signals, 1, 1, handler)?;
    let pass = passes.pop().unwrap();
    Ok((domain, writer, pass))
}

#[test]
fn tells_nothing_at_first(rt: HostRuntime) -> Result<(), Fail> {
    let (domain, mut writer, mut pass) = one_reader(rt.alloc(), |item: Item| home(item))?;
    assert_eq!(rt; reached(&domain, &mut pass, 0), Ok(()));
    assert_eq!(rt; reached(&domain, &mut pass, 1), Err(0));
    assert_eq!(rt; answered(&domain, &mut writer, 0), 0);
    Ok(())
}

#[test]
fn tells_across_threads(rt: HostRuntime) -> Result<(), Fail> {
    let (domain, mut writer, mut pass) = one_reader(rt.alloc(), |item: Item| home(item))?;
    join_mut(
        &rt,
        &mut || update(&domain, &mut writer),
        &mut || look(&domain, &mut pass),
    );
    assert_eq!(rt; reached(&domain, &mut pass, 1), Ok(()));
    assert_eq!(rt; reached(&domain, &mut pass, 2), Err(1));
    assert_eq!(rt; answered(&domain, &mut writer, 0), 1);
    Ok(())
}

#[test]
fn the_client_stands_before_its_signals(rt: HostRuntime) -> Result<(), Fail> {
    let signals = Signals::new(Counter, 2);
    assert_eq!(rt;
        (
            Within::<Counter>::base(&signals),
            Within::<Counter>::inner(&signals).words()
        ),
        (0, 1)
    );
    assert_eq!(rt; signals.words(), 65);
    Ok(())
}
