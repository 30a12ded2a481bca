//! The handler of a writer, which tells where an item goes back.
ghost use Rattle.std.specs.Prelude.{◌≡◌};
ghost use Rattle.ck_epoch.specs.State.{queue, state};
ghost use Rattle.ck_epoch.specs.Lists.{Answers, IsDispatched};

use crate::about::About;
use crate::client::Client;
use crate::item::Item;
use crate::pending::PendingItem;
use ck_run::Token;
use ck_words::Back;
use std::marker::Model;

/// A writer's handler, which `answer` alone calls. Contracts see the function.
#[derive(Drop)]
pub struct Handler<F> {
    function: F,
}

impl<F> Model for Handler<F> {
    ghost Value = { F };

    ghost view = { λ h. h.function };

    ghost invariant = { λ h. Unit {0} };
}

impl<F> Handler<F> {
    pub(crate) fn new(function: F) -> Handler<F>
        ensures { result ≡ function }
    {
        Handler { function }
    }
}

impl<F: Fn(Item) -> Back> Handler<F> {
    /// Calls the handler on an item that was dispatched: by the account of the writer's token it is pending no more.
    pub(crate) fn answer<C: Client>(
        &self,
        client: &C,
        token: &Token<About<C>>,
        pending: PendingItem,
    ) -> Back
        requires dispatched { IsDispatched (C.meaning.retires client.now) (queue (state token.now).pending) pending }
        requires handler { Answers (C.meaning.retires client.now) (C.meaning.home client.now) (F.pre self.now) (F.post self.now) }
        ensures { result ≡ C.meaning.home client.now pending.item }
    {
        // Only the contract reads these two: the step that dispatches the item was made.
        let (_client, _token) = (client, token);
        (self.function)(pending.retired.item)
    }
}
