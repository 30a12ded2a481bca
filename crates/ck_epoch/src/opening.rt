//! How a domain is made, and what it leaves.
ghost use Rattle.std.specs.Prelude.{◌≡◌, ℕ, ◌+◌, ◌<◌, ◌≤◌, ◌^◌, [], length, vec_len, vec_capacity, IfOk, All};
ghost use Rattle.ck_run.specs.Tokens.{Table, table};
ghost use Rattle.ck_run.specs.Ends.{fresh};
ghost use Rattle.ck_epoch.specs.State.{records_of};
ghost use Rattle.ck_epoch.specs.Lists.{Answers};
ghost use Rattle.ck_epoch.specs.Closing.{opened, AreOpening, AreFreshPasses, IsClosedDomain};

use crate::about::About;
use crate::answers::Closed;
use crate::backlog::Backlog;
use crate::client::Client;
use crate::domain::Domain;
use crate::ends::{PAD, Pass, Writer};
use crate::handler::Handler;
use crate::item::Item;
use crate::layout::{FIRST_EPOCH, GLOBAL, base_word, epoch_word};
use ck_run::{Opening, Token, Words};
use ck_words::Back;
use std::alloc::{AllocError, Global};

// The words at opening.
fn opening_words<C: Client>(alloc: Global, client: &C, records: u64) -> Result<Vec<u64>, AllocError>
    requires records { (1 ≤ records) × (records ≤ 64) }
    requires size { C.meaning.size client.now ≤ 2 ^ 33 }
    ensures { IfOk result (λ words. AreOpening C.meaning (opened client.now records words.items)) }
{
    let base = base_word(records);
    let size = client.words();
    let mut words = Vec::with_capacity(alloc, base + size as usize)?;
    for _i in 0..base {
        words.push_reserved(0);
    }
    words[GLOBAL] = FIRST_EPOCH;
    for rec in 0..records {
        words[epoch_word(rec)] = FIRST_EPOCH;
    }
    // A structure may have millions of words: each is written once.
    for at in 0..size {
        words.push_reserved(client.first(at));
    }
    Ok(words)
}

impl<C: Client> Pass<C> {
    // The pass of a token that made no step. Records are numbered from 0, and their tokens from 1: the writer's has the number 0.
    fn new(number: u64, token: Token<About<C>>) -> Pass<C>
        requires fresh { (table : Table (About C)) × (token ≡ fresh table number) × (0 < number) × (number ≤ records_of table.origin) × AreOpening C.meaning table.origin }
        ensures { result ≡ record { token = token; calls = 0; tally = 0 } }
    {
        Pass {
            before: [0; PAD],
            token,
            rec: number - 1,
            depth: 0,
            calls: 0,
            tally: 0,
            after: [0; PAD],
        }
    }

    // Its token.
    fn into_token(self) -> Token<About<C>>
        ensures { result ≡ self.token }
    {
        let Pass { token, .. } = self;
        token
    }
}

impl<C: Client + Drop> Domain<C> {
    /// A domain over the words of `client`, with its writer and the passes of its records, in their order. The writer has room for so
    /// many items and answers, and keeps the handler. The only error is want of memory.
    pub fn new<F: Fn(Item) -> Back + Drop>(
        alloc: Global,
        client: C,
        records: u64,
        room: u64,
        handler: F,
    ) -> Result<(Domain<C>, Writer<C, F>, Vec<Pass<C>>), AllocError>
        requires records { (1 ≤ records) × (records ≤ 64) }
        requires size { C.meaning.size client ≤ 2 ^ 33 }
        requires room { room ≤ 2 ^ 20 }
        requires handler { Answers (C.meaning.retires client) (C.meaning.home client) (F.pre handler) (F.post handler) }
        ensures about { IfOk result (λ r. r.0.origin.config ≡ record { client = client; records = records }) }
        ensures words { IfOk result (λ r. AreOpening C.meaning r.0.origin) }
        ensures writer { IfOk result (λ r. r.1 ≡ record { token = fresh r.0 0; calls = 0; waiting = []; room = room; handler = handler; tally = 0 }) }
        ensures passes { IfOk result (λ r. (vec_len r.2 ≡ records) × AreFreshPasses r.0 1 r.2.items) }
    {
        let mut passes = Vec::with_capacity(alloc, records as usize)?;
        let backlog = Backlog::new(alloc, room as usize)?;
        let opening = Opening {
            words: opening_words(alloc, &client, records)?,
            tokens: records + 1,
            config: About { client, records },
        };
        let (words, mut token, about) = Words::new(alloc, opening)?;
        words.part_all(&mut token, &mut passes, records, Pass::new);
        let writer = Writer {
            token,
            backlog,
            handler: Handler::new(handler),
            calls: 0,
            tally: 0,
        };
        Ok((Domain { words, about }, writer, passes))
    }

    /// The words of the client as they were left. The writer and the passes are given back: what they did are the parts of one true run,
    /// and in it nothing was dispatched while a section that is older was open.
    pub fn close<F: Drop>(self, writer: Writer<C, F>, passes: Vec<Pass<C>>) -> Closed
        requires writer { table writer.token ≡ self }
        requires passes { All (λ p. table p.token ≡ self) passes.items }
        ensures count { vec_len result.words ≡ C.meaning.size self.origin.config.client }
        ensures run { IsClosedDomain C.meaning writer.token passes.items result.words.items }
    {
        let Domain { words, about } = self;
        let Writer { mut token, .. } = writer;
        words.join_all(&mut token, passes, Pass::into_token);
        let base = base_word(about.records);
        let left = words.close(token, base);
        Closed { words: left }
    }
}
