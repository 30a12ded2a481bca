//! The sections of a reader.
ghost use Rattle.std.specs.Prelude.{◌≡◌, ℕ, ◌+◌, ◌-◌, ◌<◌, ◌^◌, ◌⊎◌, [], ◌∷◌};
ghost use Rattle.ck_run.specs.declared.account.Step.TheVariants.{Load, Store};
ghost use Rattle.ck_run.specs.Run.{entry, call};
ghost use Rattle.ck_run.specs.Tokens.{table, number, adding};
ghost use Rattle.ck_epoch.specs.State.{state, depth, base_of, active_word as active, epoch_word as own, begin as begins, end as ends};
ghost use Rattle.ck_epoch.specs.Ends.{IsDomainToken, IsPass};
ghost use Rattle.ck_epoch.specs.Calls.{rec_of, Begins, StepsBelow};

use crate::about::About;
use crate::client::Client;
use crate::domain::Domain;
use crate::ends::Pass;
use crate::layout::{GLOBAL, active_word, epoch_word};
use ck_run::{Continues, Opens, Token};
use std::marker::Brand;

impl<C: Client> Domain<C> {
    // Opens a section of a pass that has none open.
    fn open_section(&self, token: &mut Token<About<C>>, rec: u64)
        requires table { table token.old ≡ self.now }
        requires outside { IsPass C.meaning token.old rec 0 }
        requires calls { (state token.old).calls < 2 ^ 40 }
        ensures steps { (g : ℕ) × (token.new ≡ adding token.old (call begins [] (Store (active rec) 1 ∷ Load 0 g ∷ Store (own rec) g ∷ []))) }
        ensures inside { IsPass C.meaning token.new rec 1 }
        ensures calls { (state token.new).calls ≡ (state token.old).calls + 1 }
    {
        // The writer must see the record active before this reader loads the epoch. Were the load first, a whole poll could come between,
        // find the record inactive, and dispatch what this section is about to reach. In C this is the fence after the store.
        self.words.store::<Brand>(token, active_word(rec), 1);
        let epoch = self.words.load::<Continues>(token, GLOBAL);
        // The section opens at this store. A scan that came before it found the record active with the epoch of an earlier section: where
        // that isn't the global one the writer waits, which is safe.
        self.words.store::<Continues>(token, epoch_word(rec), epoch);
    }

    // Sets the number of nested sections, where one is open. `O` has the name of the call.
    fn set_depth<O: Opens>(&self, token: &mut Token<About<C>>, rec: u64, from: u64, depth: u64)
        requires table { table token.old ≡ self.now }
        requires inside { (0 < from) × IsPass C.meaning token.old rec from }
        requires calls { (state token.old).calls < 2 ^ 40 }
        requires name { ((depth ≡ from + 1) × (from < 2 ^ 32) × (O.opens ≡ begins ∷ [])) ⊎ ((depth ≡ from - 1) × (O.opens ≡ ends ∷ [])) }
        ensures step { token.new ≡ adding token.old (entry O.opens (Store (active rec) depth) ∷ []) }
        ensures stands { IsPass C.meaning token.new rec depth }
        ensures calls { (state token.new).calls ≡ (state token.old).calls + 1 }
    {
        let _from = from;
        self.words.store::<O>(token, active_word(rec), depth);
    }

    /// Opens a section, or nests one, as `ck_epoch_begin`.
    pub fn begin(&self, pass: &mut Pass<C>)
        requires table { table pass.old.token ≡ self.now }
        requires calls { pass.old.calls < 2 ^ 40 }
        requires depth { depth pass.old.token < 2 ^ 32 }
        ensures same { (table pass.new.token ≡ table pass.old.token) × (number pass.new.token ≡ number pass.old.token) × (pass.new.tally ≡ pass.old.tally) }
        ensures steps { Begins pass.old.token pass.new.token }
        ensures below { StepsBelow (base_of self.now.origin) pass.old.token pass.new.token }
        ensures depth { depth pass.new.token ≡ depth pass.old.token + 1 }
        ensures calls { pass.new.calls ≡ pass.old.calls + 1 }
        ensures part { IsDomainToken C.meaning pass.new.token }
    {
        let (rec, depth) = (pass.rec, pass.depth);
        if depth == 0 {
            self.open_section(&mut pass.token, rec);
        } else {
            // A nested section keeps the epoch of the outermost one: what the outer one may reach was retired at that epoch or later. To
            // store a newer epoch would let the writer dispatch it.
            self.set_depth::<Brand>(&mut pass.token, rec, depth, depth + 1);
        }
        pass.depth = depth + 1;
        pass.calls += 1;
    }

    /// Ends the section that was opened last, as `ck_epoch_end`.
    pub fn end(&self, pass: &mut Pass<C>)
        requires table { table pass.old.token ≡ self.now }
        requires calls { pass.old.calls < 2 ^ 40 }
        requires depth { 0 < depth pass.old.token }
        ensures step { pass.new ≡ record pass.old {
          token = adding pass.old.token (call ends [] (Store (active (rec_of pass.old.token)) (depth pass.old.token - 1) ∷ []));
          calls = pass.old.calls + 1;
        } }
        ensures below { StepsBelow (base_of self.now.origin) pass.old.token pass.new.token }
        ensures depth { depth pass.new.token ≡ depth pass.old.token - 1 }
        ensures part { IsDomainToken C.meaning pass.new.token }
    {
        let (rec, depth) = (pass.rec, pass.depth);
        // Only the end of the outermost section stores 0. The writer passes the record over from then on, whatever its epoch word.
        self.set_depth::<Brand>(&mut pass.token, rec, depth, depth - 1);
        pass.depth = depth - 1;
        pass.calls += 1;
    }
}
