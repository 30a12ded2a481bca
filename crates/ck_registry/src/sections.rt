//! The sections of a member.
ghost use Rattle.std.specs.Prelude.{◌≡◌, ℕ, ◌+◌, ◌-◌, ◌<◌, ◌^◌, ◌⊎◌, [], ◌∷◌};
ghost use Rattle.ck_run.specs.declared.account.Step.TheVariants.{Load, Store};
ghost use Rattle.ck_run.specs.Run.{entry, call};
ghost use Rattle.ck_run.specs.Tokens.{table, number, adding};
ghost use Rattle.ck_epoch.specs.State.{active_word as active, epoch_word as own};
ghost use Rattle.ck_registry.specs.declared.layout.TheConstants.{MOST_CALLS};
ghost use Rattle.ck_registry.specs.State.{state, begin as begins, end as ends};
ghost use Rattle.ck_registry.specs.Ends.{rec_of, depth, IsHolder, IsSameItems, IsSameMember, IsRegistryToken};
ghost use Rattle.ck_registry.specs.Calls.{Begins};

use crate::ends::Member;
use crate::layout::MOST_CALLS;
use crate::registry::Registry;
use ck_epoch::{GLOBAL, active_word, epoch_word};
use ck_run::{Continues, Opens, Token};
use std::marker::Brand;

impl Registry {
    // Opens a section of a member that has none open.
    fn open_section(&self, token: &mut Token<u64>, rec: u64)
        requires table { table token.old ≡ self.now }
        requires outside { IsHolder token.old rec 0 }
        requires calls { (state token.old).calls < MOST_CALLS }
        ensures steps { (g : ℕ) × (token.new ≡ adding token.old (call begins [] (Store (active rec) 1 ∷ Load 0 g ∷ Store (own rec) g ∷ []))) }
        ensures inside { IsHolder token.new rec 1 }
        ensures items { IsSameItems token.old token.new }
        ensures calls { (state token.new).calls ≡ (state token.old).calls + 1 }
    {
        // Members that scan must see the record active before this one loads the epoch. Were the load first, whole scans could come between,
        // find the record inactive, and dispatch what this section is about to reach. In C this is the fence after the store.
        self.words.store::<Brand>(token, active_word(rec), 1);
        let epoch = self.words.load::<Continues>(token, GLOBAL);
        // The section opens at this store. A scan that came before it found the record active with the epoch of an earlier section, whoever
        // held the record then: where that isn't the global one the scan is blocked, which is safe.
        self.words.store::<Continues>(token, epoch_word(rec), epoch);
    }

    // Sets the number of nested sections, where one is open. `O` has the name of the call.
    fn set_depth<O: Opens>(&self, token: &mut Token<u64>, rec: u64, from: u64, depth: u64)
        requires table { table token.old ≡ self.now }
        requires inside { (0 < from) × IsHolder token.old rec from }
        requires calls { (state token.old).calls < MOST_CALLS }
        requires name { ((depth ≡ from + 1) × (from < 2 ^ 32) × (O.opens ≡ begins ∷ [])) ⊎ ((depth ≡ from - 1) × (O.opens ≡ ends ∷ [])) }
        ensures step { token.new ≡ adding token.old (entry O.opens (Store (active rec) depth) ∷ []) }
        ensures stands { IsHolder token.new rec depth }
        ensures items { IsSameItems token.old token.new }
        ensures calls { (state token.new).calls ≡ (state token.old).calls + 1 }
    {
        let _from = from;
        self.words.store::<O>(token, active_word(rec), depth);
    }

    /// Opens a section of the member's record, or nests one, as `ck_epoch_begin`.
    pub fn begin(&self, m: &mut Member)
        requires table { table m.old.token ≡ self.now }
        requires calls { m.old.calls < MOST_CALLS }
        requires depth { depth m.old.token < 2 ^ 32 }
        ensures same { IsSameMember m.old m.new × (m.new.waiting ≡ m.old.waiting) }
        ensures items { IsSameItems m.old.token m.new.token }
        ensures steps { Begins m.old.token m.new.token }
        ensures depth { depth m.new.token ≡ depth m.old.token + 1 }
        ensures calls { m.new.calls ≡ m.old.calls + 1 }
        ensures part { IsRegistryToken m.new.token }
    {
        let (rec, depth) = (m.rec, m.depth);
        if depth == 0 {
            self.open_section(&mut m.token, rec);
        } else {
            // A nested section keeps the epoch of the outermost one: what the outer one may reach was retired at that epoch or later. To
            // store a newer epoch would let others dispatch it.
            self.set_depth::<Brand>(&mut m.token, rec, depth, depth + 1);
        }
        m.depth = depth + 1;
        m.calls += 1;
    }

    /// Ends the section that was opened last, as `ck_epoch_end`.
    pub fn end(&self, m: &mut Member)
        requires table { table m.old.token ≡ self.now }
        requires calls { m.old.calls < MOST_CALLS }
        requires depth { 0 < depth m.old.token }
        ensures same { IsSameMember m.old m.new × (m.new.waiting ≡ m.old.waiting) }
        ensures items { IsSameItems m.old.token m.new.token }
        ensures steps { m.new.token ≡ adding m.old.token (call ends [] (Store (active (rec_of m.old.token)) (depth m.old.token - 1) ∷ [])) }
        ensures depth { depth m.new.token ≡ depth m.old.token - 1 }
        ensures calls { m.new.calls ≡ m.old.calls + 1 }
        ensures part { IsRegistryToken m.new.token }
    {
        let (rec, depth) = (m.rec, m.depth);
        // Only the end of the outermost section stores 0. Scans pass the record over from then on, whatever its epoch word.
        self.set_depth::<Brand>(&mut m.token, rec, depth, depth - 1);
        m.depth = depth - 1;
        m.calls += 1;
    }
}
