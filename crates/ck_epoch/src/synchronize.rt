//! `synchronize` and `barrier`: the writer waits for the sections of readers.
ghost use Rattle.std.specs.Prelude.{◌≡◌, ℕ, ◌+◌, ◌<◌, ◌^◌, Bool, List, [], ◌∷◌, ◌++◌, map, length};
ghost use Rattle.ck_run.specs.declared.account.Step.{Step as StepOf};
ghost use Rattle.ck_run.specs.declared.account.Step.TheVariants.{Load};
ghost use Rattle.ck_run.specs.Run.{further};
ghost use Rattle.ck_run.specs.Tokens.{table, number, adding};
ghost use Rattle.ck_epoch.specs.State.{Task, scanning, after_raise, state, queue, records_of, synchronize as synchronizes, barrier as bars};
ghost use Rattle.ck_epoch.specs.Lists.{by_list, homes, Answers};
ghost use Rattle.ck_epoch.specs.Ends.{IsDomainToken};
ghost use Rattle.ck_epoch.specs.Calls.{RecordLook};
ghost use Rattle.ck_epoch.specs.Rounds.{wait_steps, IsWait, IsRound, IsWaiting, IsInRound, ScansOn, IsWriterFree, name_of, after_rounds, Rounds, HaveEnded};

use crate::about::About;
use crate::client::Client;
use crate::domain::Domain;
use crate::ends::Writer;
use crate::item::Item;
use crate::layout::{GLOBAL, active_word, epoch_word};
use ck_run::{Continues, Opens, Token};
use ck_words::Back;
use crossbeam_utils::Backoff;
use std::marker::Brand;
use std::sync::Wait;

impl<C: Client> Domain<C> {
    // Polls one record until it is inactive or has reached `epoch`.
    fn wait_for<R: Wait>(&self, rt: &R, token: &mut Token<About<C>>, epoch: u64, rec: u64)
        requires table { table token.old ≡ self.now }
        requires scans { IsInRound C.meaning epoch rec token.old }
        requires rec { rec < records_of self.now.origin }
        ensures table { table token.new ≡ table token.old }
        ensures steps { (looks : List RecordLook) × IsWait epoch looks × (token.new ≡ adding token.old (map further (wait_steps rec looks))) }
        ensures scans { IsInRound C.meaning epoch (rec + 1) token.new × ScansOn epoch rec (rec + 1) token.old token.new }
    {
        let backoff = Backoff::new();
        for _ in rt.forever() {
            let active = self.words.load::<Continues>(token, active_word(rec));
            if active == 0 {
                return;
            }
            let found = self.words.load::<Continues>(token, epoch_word(rec));
            if found == epoch {
                return;
            }
            backoff.snooze();
        }
    }

    // Waits for each record in order, and raises the global epoch.
    fn round<R: Wait>(&self, rt: &R, token: &mut Token<About<C>>, epoch: u64)
        requires table { table token.old ≡ self.now }
        requires scans { IsInRound C.meaning epoch 0 token.old }
        ensures table { table token.new ≡ table token.old }
        ensures steps { (steps : List StepOf) × IsRound (records_of self.now.origin) epoch (Load 0 epoch ∷ steps) × (token.new ≡ adding token.old (map further steps)) }
        ensures state { (task : Task) → IsWaiting task → (busy : _) → (state token.old).stage ≡ scanning task epoch 0 busy → state token.new ≡ record (after_raise (state token.old) task epoch) { steps = (state token.new).steps } }
        ensures part { IsDomainToken C.meaning token.new }
    {
        for rec in 0..self.about.records {
            self.wait_for(rt, token, epoch, rec);
        }
        self.words
            .exchange::<Continues>(token, GLOBAL, epoch, epoch + 1);
    }

    // Two rounds. `O` has the name of the call.
    fn two_rounds<O: Opens, R: Wait>(&self, rt: &R, token: &mut Token<About<C>>)
        requires table { table token.old ≡ self.now }
        requires free { IsWriterFree C.meaning token.old }
        requires name { (all : Bool) × (O.opens ≡ name_of all ∷ []) }
        ensures table { table token.new ≡ table token.old }
        ensures steps { (name : ℕ) → O.opens ≡ name ∷ [] → Rounds (records_of self.now.origin) name (state token.old).epoch token.old token.new }
        ensures state { (all : Bool) → O.opens ≡ name_of all ∷ [] → state token.new ≡ after_rounds all (state token.old) (state token.new).steps }
        ensures part { IsDomainToken C.meaning token.new }
    {
        // One round isn't enough: a reader may have loaded the epoch before the first round raised it, and store it after its record was
        // passed, so a section that was open at the call may lag by one. The second round waits for that one.
        let first = self.words.load::<O>(token, GLOBAL);
        self.round(rt, token, first);
        let second = self.words.load::<Continues>(token, GLOBAL);
        self.round(rt, token, second);
    }

    /// Waits until every section has ended that was open at the call, as `ck_epoch_synchronize`.
    pub fn synchronize<F, R: Wait>(&self, rt: &R, writer: &mut Writer<C, F>)
        requires table { table writer.old.token ≡ self.now }
        requires calls { writer.old.calls < 2 ^ 40 }
        ensures same { writer.new ≡ record writer.old { token = writer.new.token; calls = writer.old.calls + 1 } }
        ensures table { (table writer.new.token ≡ table writer.old.token) × (number writer.new.token ≡ number writer.old.token) }
        ensures steps { Rounds (records_of self.now.origin) synchronizes (state writer.old.token).epoch writer.old.token writer.new.token }
        ensures ended { HaveEnded C.meaning writer.old.token writer.new.token }
        ensures items { ((state writer.new.token).pending ≡ (state writer.old.token).pending) × ((state writer.new.token).dispatched ≡ (state writer.old.token).dispatched) }
        ensures epoch { (state writer.new.token).epoch ≡ (state writer.old.token).epoch + 2 }
        ensures part { IsDomainToken C.meaning writer.new.token }
    {
        self.two_rounds::<Brand, R>(rt, &mut writer.token);
        writer.calls += 1;
    }

    /// Waits as `synchronize`, and then dispatches all that is pending, as `ck_epoch_barrier`. Answers how many items that were.
    pub fn barrier<F: Fn(Item) -> Back, R: Wait>(&self, rt: &R, writer: &mut Writer<C, F>) -> u64
        requires table { table writer.old.token ≡ self.now }
        requires calls { writer.old.calls < 2 ^ 40 }
        requires handler { Answers (C.meaning.retires self.now.origin.config.client) (C.meaning.home self.now.origin.config.client) (F.pre writer.old.handler) (F.post writer.old.handler) }
        ensures same { writer.new ≡ record writer.old { token = writer.new.token; calls = writer.old.calls + 1; waiting = writer.new.waiting } }
        ensures table { (table writer.new.token ≡ table writer.old.token) × (number writer.new.token ≡ number writer.old.token) }
        ensures steps { Rounds (records_of self.now.origin) bars (state writer.old.token).epoch writer.old.token writer.new.token }
        ensures ended { HaveEnded C.meaning writer.old.token writer.new.token }
        ensures waiting { writer.new.waiting ≡ writer.old.waiting ++ homes (C.meaning.home self.now.origin.config.client) (by_list (queue (state writer.old.token).pending)) }
        ensures pending { (state writer.new.token).pending ≡ [] }
        ensures dispatched { queue (state writer.new.token).dispatched ≡ queue (state writer.old.token).dispatched ++ by_list (queue (state writer.old.token).pending) }
        ensures count { result ≡ length (state writer.old.token).pending }
        ensures epoch { (state writer.new.token).epoch ≡ (state writer.old.token).epoch + 2 }
        ensures part { IsDomainToken C.meaning writer.new.token }
    {
        let client = &self.about.client;
        self.two_rounds::<Brand, R>(rt, &mut writer.token);
        writer.calls += 1;
        writer
            .backlog
            .dispatch_all(client, &writer.token, &writer.handler)
    }
}
