//! The domain, which threads share.
ghost use Rattle.std.specs.Prelude.{◌≡◌, ◌≤◌, ◌^◌};

use crate::about::About;
use crate::client::Client;
use ck_run::{Program, Words};
use std::marker::{Model, PhantomData};

/// The accounts that the calls of a domain make.
pub(crate) struct Calls<C> {
    of: PhantomData<C>,
}

impl<C: Client> Program<About<C>> for Calls<C> {
    ghost use Rattle.ck_epoch.specs.Client.{program};

    ghost follows = { program C.meaning };
}

/// The words of a structure, with sections for its readers and a writer that retires parts of it. Contracts see which table the words
/// are, and how it began.
#[derive(Drop)]
pub struct Domain<C: Client> {
    pub(crate) words: Words<About<C>, Calls<C>>,
    pub(crate) about: About<C>,
}

impl<C: Client> Model for Domain<C> {
    ghost use Rattle.ck_run.specs.Tokens.{Table};
    ghost use Rattle.ck_epoch.specs.declared.about.About.{About as AboutOf};
    ghost use Rattle.ck_epoch.specs.Ends.{IsDomain};

    ghost Value = { Table (AboutOf C) };

    ghost view = { λ d. d.words };

    ghost invariant = { λ d. IsDomain C.meaning d.words.origin d.about };
}

impl<C: Client> Domain<C> {
    /// The client that the domain was made with.
    pub fn client(&self) -> &C
        ensures same { result.now ≡ self.now.origin.config.client }
        ensures small { C.meaning.size self.now.origin.config.client ≤ 2 ^ 33 }
    {
        &self.about.client
    }
}
