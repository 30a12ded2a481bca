//! The registry, which threads share, and how visitors take records and hand them back.
ghost use Rattle.std.specs.Prelude.{◌≡◌, ℕ, ◌+◌, ◌<◌, ◌≤◌, ◌^◌, [], ◌∷◌, MatchResult, length};
ghost use Rattle.ck_run.specs.declared.account.Step.TheVariants.{Store};
ghost use Rattle.ck_run.specs.Run.{call};
ghost use Rattle.ck_run.specs.Tokens.{table, number, adding};
ghost use Rattle.ck_registry.specs.State.{Token as TokenOf, state_word as state_of, unregister as unregisters, records_of, state};
ghost use Rattle.ck_registry.specs.Ends.{rec_of, depth, IsRegistryToken};
ghost use Rattle.ck_registry.specs.Scan.{opens_at, IsTrying, HasTried};
ghost use Rattle.ck_registry.specs.Calls.{Registers, FindsNoRecord};

use crate::answers::NoRecord;
use crate::ends::{Member, PAD, Visitor};
use crate::layout::{FREE, HELD, state_word};
use ck_run::{Opens, Program, Token, Words};
use std::marker::{Brand, Model};

/// The accounts that the calls of a registry make.
pub(crate) struct Calls;

impl Program<u64> for Calls {
    ghost use Rattle.ck_run.specs.Machine.{follows_of};
    ghost use Rattle.ck_registry.specs.State.{registry};

    ghost follows = { follows_of registry };
}

/// Records that visitors take and hand back, and the global epoch. Contracts see which table the words are, and how it began.
#[derive(Drop)]
pub struct Registry {
    pub(crate) words: Words<u64, Calls>,
    pub(crate) records: u64,
}

impl Model for Registry {
    ghost use Rattle.std.specs.Prelude.{ℕ};
    ghost use Rattle.ck_run.specs.Tokens.{Table};
    ghost use Rattle.ck_registry.specs.Ends.{IsRegistry};

    ghost Value = { Table ℕ };

    ghost view = { λ r. r.words };

    ghost invariant = { λ r. IsRegistry r.words.origin r.records };
}

impl Registry {
    // Takes the record where it is free. `O` has the name of the call where this is its first step.
    fn try_record<O: Opens>(&self, token: &mut Token<u64>, rec: u64) -> bool
        requires table { table token.old ≡ self.now }
        requires rec { rec < records_of self.now.origin }
        requires name { O.opens ≡ opens_at rec }
        requires trying { (t : TokenOf) × IsTrying t token.old rec }
        ensures table { table token.new ≡ table token.old }
        ensures outcome { (t : TokenOf) → IsTrying t token.old rec → HasTried t token.new rec result }
    {
        // An exchange, since two visitors may find the record free at once: it stores only where it finds it free.
        self.words
            .exchange::<O>(token, state_word(self.records, rec), FREE, HELD)
            == FREE
    }

    /// Takes the first record that it finds free, in order, and makes the visitor a member. Returns `NoRecord` if and only if it tried each
    /// record once and found each held. As `ck_epoch_recycle`, but records are never made anew.
    pub fn register(&self, v: Visitor) -> Result<Member, NoRecord>
        requires table { table v.token ≡ self.now }
        ensures steps { MatchResult result
            (λ m. Registers (records_of self.now.origin) (rec_of m.token) v.token m.token)
            (λ no. FindsNoRecord (records_of self.now.origin) v.token no.visitor.token) }
        ensures tried { MatchResult result (λ _. Unit {0}) (λ no. no.tried ≡ records_of self.now.origin) }
        ensures same { MatchResult result
            (λ m. (table m.token ≡ table v.token) × (number m.token ≡ number v.token) × (m.room ≡ v.room) × (m.calls ≡ v.calls))
            (λ no. (table no.visitor.token ≡ table v.token) × (number no.visitor.token ≡ number v.token) × (no.visitor.room ≡ v.room) × (no.visitor.calls ≡ v.calls)) }
        ensures begins { MatchResult result (λ m. (depth m.token ≡ 0) × ((state m.token).pending ≡ []) × (m.waiting ≡ [])) (λ _. Unit {0}) }
        ensures part { MatchResult result (λ m. IsRegistryToken m.token) (λ no. IsRegistryToken no.visitor.token) }
    {
        let Visitor {
            mut token,
            deferred,
            calls,
        } = v;
        for rec in 0..self.records {
            if self.try_record::<Brand>(&mut token, rec) {
                return Ok(Member {
                    before: [0; PAD],
                    token,
                    deferred,
                    rec,
                    depth: 0,
                    calls,
                    after: [0; PAD],
                });
            }
        }
        let visitor = Visitor {
            token,
            deferred,
            calls,
        };
        Err(NoRecord {
            visitor,
            tried: self.records,
        })
    }

    /// Hands the record back: another visitor may take it from now on. As `ck_epoch_unregister`.
    pub fn unregister(&self, m: Member) -> Visitor
        requires table { table m.token ≡ self.now }
        requires depth { depth m.token ≡ 0 }
        requires pending { length (state m.token).pending ≡ 0 }
        requires waiting { length m.waiting ≡ 0 }
        ensures step { result ≡ record {
          token = adding m.token (call unregisters [] (Store (state_of (records_of self.now.origin) (rec_of m.token)) 0 ∷ []));
          calls = m.calls;
          room = m.room;
        } }
        ensures part { IsRegistryToken result.token }
    {
        let Member {
            before: _,
            mut token,
            deferred,
            rec,
            depth: _,
            calls,
            after: _,
        } = m;
        // A store: this member alone may change the state of a record that it holds. Its active word is 0, so the next member begins as the
        // first one did. Its epoch word may be old, as that of any record with no section open.
        self.words
            .store::<Brand>(&mut token, state_word(self.records, rec), FREE);
        Visitor {
            token,
            deferred,
            calls,
        }
    }
}
