//! How the writer retires items, and takes the answers of those that were dispatched.
ghost use Rattle.std.specs.Prelude.{◌≡◌, ℕ, ◌+◌, ◌<◌, ◌^◌, true, [], ◌∷◌, ◌++◌, length};
ghost use Rattle.std.specs.Option.{MatchOption};
ghost use Rattle.ck_run.specs.declared.account.Step.TheVariants.{Load};
ghost use Rattle.ck_run.specs.Run.{handing};
ghost use Rattle.ck_run.specs.Tokens.{table, adding, MayMake, Makes};
ghost use Rattle.ck_epoch.specs.State.{state, queue};
ghost use Rattle.ck_epoch.specs.Client.{program};
ghost use Rattle.ck_epoch.specs.Ends.{IsDomainToken, IsWriting};
ghost use Rattle.ck_epoch.specs.Calls.{MayFollow};

use crate::about::About;
use crate::client::Client;
use crate::domain::Domain;
use crate::ends::Writer;
use crate::item::Item;
use crate::layout::GLOBAL;
use ck_run::{Hands, Opens, Token};
use ck_words::Back;
use std::marker::Brand;

impl<C: Client> Domain<C> {
    // The load by which an item is retired.
    fn retire<O: Opens, H: Hands>(&self, token: &mut Token<About<C>>, item: Item) -> u64
        requires table { table token.old ≡ self.now }
        requires may { (n : ℕ) → n < 2 ^ 64 → MayMake (program C.meaning) token.old (handing O.opens H.item (Load 0 n)) }
        ensures table { table token.new ≡ table token.old }
        ensures step { Makes (program C.meaning) token.old (handing O.opens H.item (Load 0 result)) token.new }
    {
        let _item = item; // only the contract reads it: it says which item the step hands over
        self.words.load_handing::<O, H>(token, GLOBAL)
    }

    /// Retires an item, as `ck_epoch_call`: it is pending from now on, with the global epoch that this call loads.
    pub fn call<O: Opens, F>(&self, writer: &mut Writer<C, F>, item: Item)
        requires table { table writer.old.token ≡ self.now }
        requires calls { writer.old.calls < 2 ^ 40 }
        requires retires { C.meaning.retires self.now.origin.config.client item ≡ true }
        requires room { length (state writer.old.token).pending + length writer.old.waiting < writer.old.room }
        requires client { IsWriting C.meaning writer.old.token → (n : ℕ) → n < 2 ^ 64 → MayFollow C.meaning writer.old.token (handing O.opens (item.at ∷ item.log ∷ []) (Load 0 n)) }
        ensures step { writer.new ≡ record writer.old {
          token = adding writer.old.token (handing O.opens (item.at ∷ item.log ∷ []) (Load 0 (state writer.old.token).epoch) ∷ []);
          calls = writer.old.calls + 1;
        } }
        ensures pending { queue (state writer.new.token).pending ≡ queue (state writer.old.token).pending ++ record { item = item; epoch = (state writer.old.token).epoch } ∷ [] }
        ensures same { ((state writer.new.token).dispatched ≡ (state writer.old.token).dispatched) × ((state writer.new.token).epoch ≡ (state writer.old.token).epoch) }
        ensures part { IsDomainToken C.meaning writer.new.token }
    {
        // A section that opened before this load has at most this epoch, and one that opens after it can't reach the item.
        let epoch = self.retire::<O, Brand>(&mut writer.token, item);
        writer.backlog.retire(&writer.token, item, epoch);
        writer.calls += 1;
    }

    /// Takes the answer that waits longest. None comes exactly where none waits.
    pub fn next_back<F>(&self, writer: &mut Writer<C, F>) -> Option<Back>
        requires table { table writer.old.token ≡ self.now }
        ensures oldest { MatchOption result ((writer.old.waiting ≡ []) × (writer.new.waiting ≡ [])) (λ b. writer.old.waiting ≡ b ∷ writer.new.waiting) }
        ensures same { writer.new ≡ record writer.old { waiting = writer.new.waiting } }
    {
        writer.backlog.next_back()
    }
}
