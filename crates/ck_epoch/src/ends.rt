//! The tokens of a domain: the writer, and a pass for each record. Contracts see of each its account, which is the list of the steps
//! that were made with it.
ghost use Rattle.std.specs.Prelude.{◌≡◌, ◌+◌, ◌<◌, ◌^◌, length};
ghost use Rattle.ck_run.specs.Tokens.{number, origin};
ghost use Rattle.ck_epoch.specs.State.{state, depth, records_of};
ghost use Rattle.ck_epoch.specs.Ends.{IsWriting, IsReading};

use crate::about::About;
use crate::backlog::Backlog;
use crate::client::Client;
use crate::handler::Handler;
use ck_run::Token;
use std::marker::Model;

/// The one token that retires items and moves the global epoch. A thread that has it is the domain's writer.
#[derive(Drop)]
pub struct Writer<C: Client, F> {
    pub(crate) token: Token<About<C>>,
    pub(crate) backlog: Backlog,
    pub(crate) handler: Handler<F>,
    pub(crate) calls: u64,
    pub(crate) tally: u64,
}

impl<C: Client, F> Model for Writer<C, F> {
    ghost use Rattle.std.specs.Prelude.{◌≤◌};
    ghost use Rattle.ck_epoch.specs.State.{state};
    ghost use Rattle.ck_epoch.specs.Ends.{Writer as WriterOf, IsWriter};

    ghost Value = { WriterOf C F };

    ghost view = { λ w. record { token = w.token; calls = w.calls; waiting = w.backlog.waiting; room = w.backlog.room; handler = w.handler; tally = w.tally } };

    ghost invariant = { λ w. IsWriter C.meaning w.token w.backlog × ((state w.token).calls ≤ w.calls) };
}

/// The token of one record. A thread that has it is a reader.
#[derive(Drop)]
#[repr(C)]
pub struct Pass<C: Client> {
    // Each section changes `depth` and `calls`. Passes stand side by side, on one stack or in a `Vec`, and each is used by another
    // thread: without room around them two threads would write to one cache line, and a section would be four times as dear.
    pub(crate) before: [u64; PAD],
    pub(crate) token: Token<About<C>>,
    pub(crate) rec: u64,
    pub(crate) depth: u64,
    pub(crate) calls: u64,
    pub(crate) tally: u64,
    pub(crate) after: [u64; PAD],
}

/// How many unused words stand on each side of a pass: with the next pass's these are two cache lines, `STRIDE` words.
pub(crate) const PAD: usize = 8;

impl<C: Client> Model for Pass<C> {
    ghost use Rattle.std.specs.Prelude.{◌≤◌};
    ghost use Rattle.ck_epoch.specs.State.{state};
    ghost use Rattle.ck_epoch.specs.Ends.{Pass as PassOf, IsPass};

    ghost Value = { PassOf C };

    ghost view = { λ p. record { token = p.token; calls = p.calls; tally = p.tally } };

    ghost invariant = { λ p. IsPass C.meaning p.token p.rec p.depth × ((state p.token).calls ≤ p.calls) };
}

impl<C: Client, F> Writer<C, F> {
    /// How many items are pending.
    pub fn pending(&self) -> u64
        ensures { result ≡ length (state self.now.token).pending }
    {
        self.backlog.pending()
    }

    /// How many answers of the handler wait.
    pub fn waiting(&self) -> u64
        ensures { result ≡ length self.now.waiting }
    {
        self.backlog.waiting()
    }

    /// How many counted calls were made with it: all but `ask`, `write` and `next_back`.
    pub fn calls(&self) -> u64
        ensures { result ≡ self.now.calls }
    {
        self.calls
    }

    /// A number that the client keeps here. It is 0 at opening. Contracts also see that the token is a writer's in a true run.
    pub fn tally(&self) -> u64
        ensures tally { result ≡ self.now.tally }
        ensures writing { IsWriting C.meaning self.now.token }
    {
        self.tally
    }

    /// Keeps another number there.
    pub fn set_tally(&mut self, n: u64)
        requires calls { self.old.calls < 2 ^ 40 }
        ensures { self.new ≡ record self.old { calls = self.old.calls + 1; tally = n } }
    {
        self.calls += 1;
        self.tally = n;
    }
}

impl<C: Client> Pass<C> {
    /// The number of its record, from 0. Contracts also see that the token is a pass's in a true run.
    pub fn rec(&self) -> u64
        ensures rec { result + 1 ≡ number self.now.token }
        ensures low { result < records_of (origin self.now.token) }
        ensures reading { IsReading C.meaning self.now.token }
    {
        self.rec
    }

    /// How many nested sections are open.
    pub fn depth(&self) -> u64
        ensures { result ≡ depth self.now.token }
    {
        self.depth
    }

    /// How many counted calls were made with it: all but `read` and `tell`.
    pub fn calls(&self) -> u64
        ensures { result ≡ self.now.calls }
    {
        self.calls
    }

    /// A number that the client keeps here. It is 0 at opening. Contracts also see that the token is a pass's in a true run.
    pub fn tally(&self) -> u64
        ensures tally { result ≡ self.now.tally }
        ensures reading { IsReading C.meaning self.now.token }
    {
        self.tally
    }

    /// Keeps another number there.
    pub fn set_tally(&mut self, n: u64)
        requires calls { self.old.calls < 2 ^ 40 }
        ensures { self.new ≡ record self.old { calls = self.old.calls + 1; tally = n } }
    {
        self.calls += 1;
        self.tally = n;
    }
}
