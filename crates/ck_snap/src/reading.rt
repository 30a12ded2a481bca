//! The calls of the readers.
ghost use Rattle.std.specs.Prelude.{◌≡◌, ◌+◌, ◌<◌, ◌≤◌, ◌^◌, ◌++◌, ◌∷◌, [], length, IfErr, OnOk};
ghost use mathlib.Core.List.{IsPrefix};
ghost use Rattle.ck_history.specs.declared.event.ReaderEvent.TheVariants.{Answered, Reached};
ghost use Rattle.ck_snap.specs.Places.{ArePlacedIn};
ghost use Rattle.ck_snap.specs.Tokens.{IsPassOf, mine, placed, look_of};

use crate::tokens::{Snap, SnapPass};
use ck_history::{Key, Look};
use std::sync::Wait;

impl Snap {
    /// The key's value, or that it is absent, after all updates that the pass sees at the enter that this call makes. Never `Again`.
    pub fn look<R: Wait>(&self, rt: &R, pass: &mut SnapPass, key: Key) -> Look
        requires token { IsPassOf self.now pass.old }
        requires calls { pass.old.calls < 2 ^ 40 }
        ensures later { IsPrefix pass.old.seen pass.new.seen }
        ensures answer { result ≡ look_of (placed pass.new key).answer }
        ensures pass { pass.new ≡ record pass.old { seen = pass.new.seen; done = pass.old.done ++ Answered key (placed pass.new key).answer ∷ []; places = pass.old.places ++ length pass.new.seen ∷ []; enters = pass.old.enters + 1; calls = pass.old.calls + 1 } }
        ensures mine { mine pass.new ≡ mine pass.old ++ placed pass.new key ∷ [] }
        ensures placed { ArePlacedIn pass.new.seen pass.new.done pass.new.places }
    {
        let answer = pass.subscriber.look(rt, key);
        let place = pass.subscriber.version().count();
        self.journals
            .note_answer(&mut pass.journal, key, answer, place);
        pass.calls += 1;
        match answer {
            Some(value) => Look::Found(value),
            None => Look::Absent,
        }
    }

    /// Whether the pass sees at least `n` updates at the enter that this call makes. `Err` tells how many it sees.
    pub fn reached<R: Wait>(&self, rt: &R, pass: &mut SnapPass, n: u64) -> Result<(), u64>
        requires token { IsPassOf self.now pass.old }
        ensures later { IsPrefix pass.old.seen pass.new.seen }
        ensures ok { OnOk result (n ≤ length pass.new.seen) }
        ensures err { IfErr result (λ count. (count ≡ length pass.new.seen) × (count < n)) }
        ensures pass { pass.new ≡ record pass.old { seen = pass.new.seen; done = pass.old.done ++ Reached n result ∷ []; enters = pass.old.enters + 1 } }
        ensures mine { mine pass.new ≡ mine pass.old }
        ensures placed { ArePlacedIn pass.new.seen pass.new.done pass.new.places }
    {
        pass.subscriber.see(rt);
        let count = pass.subscriber.version().count();
        let result = if n <= count { Ok(()) } else { Err(count) };
        self.journals.note_reached(&mut pass.journal, n, result);
        result
    }
}

impl SnapPass {
    /// The number of counted calls that were made with it: those of `look` and `tie`.
    pub fn calls(&self) -> u64
        ensures { result ≡ self.now.calls }
    {
        self.calls
    }
}
