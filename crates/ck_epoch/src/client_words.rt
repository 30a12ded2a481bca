//! Steps on the words of the client, by a reader and by the writer.
ghost use Rattle.std.specs.Prelude.{◌≡◌, ℕ, ◌+◌, ◌<◌, ◌^◌, true, [], ◌∷◌};
ghost use Rattle.ck_run.specs.declared.account.Step.TheVariants.{Load, Store};
ghost use Rattle.ck_run.specs.Run.{entry};
ghost use Rattle.ck_run.specs.Tokens.{table, adding};
ghost use Rattle.ck_epoch.specs.State.{depth, base_of};
ghost use Rattle.ck_epoch.specs.Ends.{IsDomainToken, IsReading, IsWriting};
ghost use Rattle.ck_epoch.specs.Calls.{SameItemsAndEpoch, MayFollow};

use crate::client::Client;
use crate::domain::Domain;
use crate::ends::{Pass, Writer};
use crate::layout::base_word;
use ck_run::Opens;

impl<C: Client> Domain<C> {
    /// Loads a word of the client's. `O` has the name and the arguments of the call that this step opens, if it opens one.
    pub fn read<O: Opens>(&self, pass: &mut Pass<C>, at: u64) -> u64
        requires table { table pass.old.token ≡ self.now }
        requires word { at < C.meaning.size self.now.origin.config.client }
        requires section { C.meaning.guarded self.now.origin.config.client at ≡ true → 0 < depth pass.old.token }
        requires client { IsReading C.meaning pass.old.token → (n : ℕ) → n < 2 ^ 64 → MayFollow C.meaning pass.old.token (entry O.opens (Load (base_of self.now.origin + at) n)) }
        ensures step { pass.new ≡ record pass.old { token = adding pass.old.token (entry O.opens (Load (base_of self.now.origin + at) result) ∷ []) } }
        ensures depth { depth pass.new.token ≡ depth pass.old.token }
        ensures part { IsDomainToken C.meaning pass.new.token }
    {
        let word = base_word(self.about.records) + at as usize;
        self.words.load::<O>(&mut pass.token, word)
    }

    /// Stores a number in a word of the client's.
    pub fn tell<O: Opens>(&self, pass: &mut Pass<C>, at: u64, value: u64)
        requires table { table pass.old.token ≡ self.now }
        requires word { at < C.meaning.size self.now.origin.config.client }
        requires client { IsReading C.meaning pass.old.token → MayFollow C.meaning pass.old.token (entry O.opens (Store (base_of self.now.origin + at) value)) }
        ensures step { pass.new ≡ record pass.old { token = adding pass.old.token (entry O.opens (Store (base_of self.now.origin + at) value) ∷ []) } }
        ensures depth { depth pass.new.token ≡ depth pass.old.token }
        ensures part { IsDomainToken C.meaning pass.new.token }
    {
        let word = base_word(self.about.records) + at as usize;
        self.words.store::<O>(&mut pass.token, word, value);
    }

    /// Loads a word of the client's. `O` has the name and the arguments of the call that this step opens, if it opens one.
    pub fn ask<O: Opens, F>(&self, writer: &mut Writer<C, F>, at: u64) -> u64
        requires table { table writer.old.token ≡ self.now }
        requires word { at < C.meaning.size self.now.origin.config.client }
        requires client { IsWriting C.meaning writer.old.token → (n : ℕ) → n < 2 ^ 64 → MayFollow C.meaning writer.old.token (entry O.opens (Load (base_of self.now.origin + at) n)) }
        ensures step { writer.new ≡ record writer.old { token = adding writer.old.token (entry O.opens (Load (base_of self.now.origin + at) result) ∷ []) } }
        ensures same { SameItemsAndEpoch writer.old.token writer.new.token }
        ensures part { IsDomainToken C.meaning writer.new.token }
    {
        let word = base_word(self.about.records) + at as usize;
        self.words.load::<O>(&mut writer.token, word)
    }

    /// Stores a number in a word of the client's.
    pub fn write<O: Opens, F>(&self, writer: &mut Writer<C, F>, at: u64, value: u64)
        requires table { table writer.old.token ≡ self.now }
        requires word { at < C.meaning.size self.now.origin.config.client }
        requires client { IsWriting C.meaning writer.old.token → MayFollow C.meaning writer.old.token (entry O.opens (Store (base_of self.now.origin + at) value)) }
        ensures step { writer.new ≡ record writer.old { token = adding writer.old.token (entry O.opens (Store (base_of self.now.origin + at) value) ∷ []) } }
        ensures same { SameItemsAndEpoch writer.old.token writer.new.token }
        ensures part { IsDomainToken C.meaning writer.new.token }
    {
        let word = base_word(self.about.records) + at as usize;
        self.words.store::<O>(&mut writer.token, word, value);
    }
}
