//! How members retire items, and take those that were dispatched.
ghost use Rattle.std.specs.Prelude.{◌≡◌, ℕ, ◌+◌, ◌<◌, ◌^◌, [], ◌∷◌, ◌++◌, length};
ghost use Rattle.std.specs.Option.{MatchOption};
ghost use Rattle.ck_run.specs.declared.account.Step.TheVariants.{Load};
ghost use Rattle.ck_run.specs.Run.{handing};
ghost use Rattle.ck_run.specs.Machine.{follows_of};
ghost use Rattle.ck_run.specs.Tokens.{table, MayMake, Makes};
ghost use Rattle.ck_epoch.specs.State.{queue};
ghost use Rattle.ck_registry.specs.declared.layout.TheConstants.{MOST_CALLS};
ghost use Rattle.ck_registry.specs.State.{state, registry, retire as retires};
ghost use Rattle.ck_registry.specs.Ends.{IsSameMember, IsRegistryToken};
ghost use Rattle.ck_registry.specs.Deferred.{items_of, IsLeftOf};
ghost use Rattle.ck_registry.specs.Calls.{IsRetiring};

use crate::ends::Member;
use crate::layout::MOST_CALLS;
use crate::registry::Registry;
use ck_epoch::{GLOBAL, Item};
use ck_run::{Hands, Opens, Token};
use std::marker::Brand;

impl Registry {
    // The load by which an item is retired.
    fn retire<O: Opens, H: Hands>(&self, token: &mut Token<u64>, item: Item) -> u64
        requires table { table token.old ≡ self.now }
        requires may { (n : ℕ) → n < 2 ^ 64 → MayMake (follows_of registry) token.old (handing O.opens H.item (Load 0 n)) }
        ensures table { table token.new ≡ table token.old }
        ensures step { Makes (follows_of registry) token.old (handing O.opens H.item (Load 0 result)) token.new }
    {
        let _item = item; // only the contract reads it: it says which item the step hands over
        self.words.load_handing::<O, H>(token, GLOBAL)
    }

    /// Retires an item, as `ck_epoch_call`: it is pending from now on, with the global epoch that this call loads. An item is a label, and
    /// equal ones may be retired: each retirement is dispatched by itself.
    pub fn call(&self, m: &mut Member, item: Item)
        requires table { table m.old.token ≡ self.now }
        requires calls { m.old.calls < MOST_CALLS }
        requires room { length (state m.old.token).pending + length m.old.waiting < m.old.room }
        ensures retires { (e : ℕ) × IsRetiring item e m.old m.new }
        ensures same { IsSameMember m.old m.new }
        ensures depth { (state m.new.token).section ≡ (state m.old.token).section }
        ensures part { IsRegistryToken m.new.token }
    {
        // A section that opened before this load has at most this epoch, and one that opens after it can't reach the item.
        let epoch = self.retire::<Brand, Brand>(&mut m.token, item);
        m.deferred.retire(item, epoch);
        m.calls += 1;
    }

    /// Takes the item that was dispatched first of those that wait. None comes exactly where none waits. No section that is open is older
    /// than its retirement. As `ck_epoch_dispatch`, but for one item at a time.
    pub fn next_item(&self, m: &mut Member) -> Option<Item>
        requires table { table m.old.token ≡ self.now }
        requires calls { m.old.calls < MOST_CALLS }
        ensures oldest { MatchOption result ((m.old.waiting ≡ []) × (m.new.waiting ≡ [])) (λ i. m.old.waiting ≡ i ∷ m.new.waiting) }
        ensures dispatched { MatchOption result (Unit {0}) (λ i. IsLeftOf (i ∷ m.new.waiting) (queue (state m.new.token).dispatched)) }
        ensures same { m.new ≡ record m.old { waiting = m.new.waiting; calls = m.old.calls + 1 } }
    {
        m.calls += 1;
        m.deferred.next_item()
    }
}
