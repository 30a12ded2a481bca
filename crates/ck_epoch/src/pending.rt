//! Items that are pending, on their way from `call` to the handler.
ghost use Rattle.std.specs.Prelude.{◌≡◌, Contains};
ghost use Rattle.ck_epoch.specs.State.{queue, state};

use crate::about::About;
use crate::item::{Item, Retired};
use ck_run::Token;
use std::marker::Model;

/// One retirement of an item. It can't be copied, and is made only where the item is pending by the writer's account, and given up only
/// to the handler, where it is pending no more. So the handler is called on no retirement twice, nor before the step that dispatches it.
#[derive(Drop)]
pub struct PendingItem {
    pub(crate) retired: Retired,
    // Without a private field other modules could make one.
    made: (),
}

impl Model for PendingItem {
    ghost use Rattle.ck_epoch.specs.declared.item.Retired.{Retired as RetiredOf};

    ghost Value = { RetiredOf };

    ghost view = { λ p. p.retired };

    ghost invariant = { λ p. Unit {0} };
}

impl PendingItem {
    /// The item that was retired at this epoch.
    pub(crate) fn new<C>(token: &Token<About<C>>, item: Item, epoch: u64) -> PendingItem
        requires pending { Contains (queue (state token.now).pending) (record { item = item; epoch = epoch }) }
        ensures { result ≡ record { item = item; epoch = epoch } }
    {
        // Only the contract reads it: the load that retires the item was made.
        let _token = token;
        PendingItem {
            retired: Retired { item, epoch },
            made: (),
        }
    }
}
