//! What holds in every true run of the calls of a ring.
ghost use Rattle.ck_ring.specs.Order.{RingOrder};

use ck_run::{Invariant, holds_along_law};

// What each step keeps. The order of a ring follows from it.
pub(crate) struct Ordered;

impl Invariant<()> for Ordered {
    ghost use Rattle.ck_ring.specs.Order.{ring_invariant};

    ghost claim = { ring_invariant };
}

/// At each moment of every true run of the calls of a ring, made by any number of consumers, the words and what the tokens did are in
/// ring order.
pub fn ring_order_law()
    ensures { RingOrder }
{
    holds_along_law::<(), Ordered>();
}
