ghost use Rattle.std.specs.Prelude.{◌≡◌};

use crate::tests::one_reader;
use crate::{Client, Item, Within};
use ck_words::Back;
use std::marker::Brand;
use std::test::Fail;

// Two words that begin with this number. The writer and each reader may load and store them, and nothing is retired.
#[derive(Drop)]
struct Board {
    start: u64,
}

impl Client for Board {
    ghost use Rattle.std.specs.Prelude.{ℕ, false, []};
    ghost use Rattle.std.proofs.Common.{le_refl, refl};

    ghost meaning = { record {
      size = λ c. 2;
      first = λ c at. c.start;
      guarded = λ c at. false;
      follows = λ first origin n es. Unit {0};
      retires = λ c item. false;
      home = λ c item. record { shelf = 0; at = item.at; log = item.log };
      Update = ℕ;
      log = λ first origin es. [];
      answered = λ first origin es. 0;
    } };

    fn words(&self) -> u64 {
        2
    }

    fn first(&self, _at: u64) -> u64 {
        self.start
    }

    ghost starts = { λ first origin placed n. tt };

    ghost passes = { λ first origin n es e follows others. tt };

    ghost grows = { λ first origin es e. ([], refl) };

    ghost rises = { λ first origin es e. le_refl 0 };
}

impl Within<Board> for Board {
    ghost use Rattle.ck_epoch.specs.Itself.{itself};

    ghost place = { λ c. 0 };

    ghost part = { λ c. c };

    fn base(&self) -> u64 {
        0
    }

    fn inner(&self) -> &Board {
        self
    }

    ghost within = { itself Self.meaning };
}

fn home(item: Item) -> Back {
    Back {
        shelf: 0,
        at: item.at,
        log: item.log,
    }
}

#[test]
fn a_word_that_a_reader_told_is_asked(rt: HostRuntime) -> Result<(), Fail> {
    let (domain, mut writer, mut pass) = one_reader(rt.alloc(), Board { start: 7 }, home)?;
    assert_eq!(rt; domain.ask::<Brand, _>(&mut writer, 1), 7);
    domain.tell::<Brand>(&mut pass, 1, 5);
    assert_eq!(rt; domain.ask::<Brand, _>(&mut writer, 1), 5);
    domain.write::<Brand, _>(&mut writer, 0, 3);
    assert_eq!(rt; domain.read::<Brand>(&mut pass, 0), 3);
    let mut passes = Vec::new(rt.alloc());
    passes.push(pass)?;
    let closed = domain.close(writer, passes);
    assert_eq!(rt; closed.words.as_slice(), [3, 5].as_slice());
    Ok(())
}

#[test]
fn a_domain_keeps_its_client(rt: HostRuntime) -> Result<(), Fail> {
    let (domain, _writer, _pass) = one_reader(rt.alloc(), Board { start: 9 }, home)?;
    let client = domain.client();
    assert_eq!(rt; client.start, 9);
    assert_eq!(rt;
        (
            Within::<Board>::base(client),
            Within::<Board>::inner(client).start
        ),
        (0, 9)
    );
    Ok(())
}
