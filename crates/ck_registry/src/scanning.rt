//! `scan` and `advance`: one look at each record, and what may be dispatched by what it finds.
ghost use Rattle.std.specs.Prelude.{◌≡◌, ℕ, ◌+◌, ◌<◌, ◌≤◌, ◌^◌, None, MatchResult};
ghost use Rattle.ck_run.specs.Tokens.{table};
ghost use Rattle.ck_registry.specs.declared.layout.TheConstants.{MOST_CALLS};
ghost use Rattle.ck_registry.specs.declared.answers.Finding.TheVariants.{OneBehind};
ghost use Rattle.ck_registry.specs.State.{Token as TokenOf, state, ready, records_of};
ghost use Rattle.ck_registry.specs.Ends.{IsHolder, IsSameMember, IsRegistryToken};
ghost use Rattle.ck_registry.specs.Scan.{HasLookedAt, HasScanned};
ghost use Rattle.ck_registry.specs.Calls.{IsScan, IsAdvance};

use crate::answers::{Advance, Finding, Scan};
use crate::ends::Member;
use crate::layout::MOST_CALLS;
use crate::registry::Registry;
use ck_epoch::{GLOBAL, active_word, epoch_word};
use ck_run::{Continues, Token};
use std::marker::Brand;

impl Registry {
    // The first step of a scan.
    fn start_scan(&self, token: &mut Token<u64>, rec: u64, depth: u64) -> u64
        requires table { table token.old ≡ self.now }
        requires holder { IsHolder token.old rec depth }
        requires calls { (state token.old).calls < MOST_CALLS }
        ensures table { table token.new ≡ table token.old }
        ensures late { 4 ≤ result }
        ensures scanning { HasLookedAt token.old token.new result 0 None }
    {
        let (_rec, _depth) = (rec, depth); // only the contract reads them
        self.words.load::<Brand>(token, GLOBAL)
    }

    // Looks at one record. Ok passes on the first record that was active, and Err has another epoch, with which this one is active.
    fn look(
        &self,
        token: &mut Token<u64>,
        epoch: u64,
        rec: u64,
        first: Option<u64>,
    ) -> Result<Option<u64>, u64>
        requires table { table token.old ≡ self.now }
        requires rec { rec < records_of self.now.origin }
        requires scanning { (t : TokenOf) × HasLookedAt t token.old epoch rec first }
        ensures table { table token.new ≡ table token.old }
        ensures outcome { (t : TokenOf) → HasLookedAt t token.old epoch rec first → MatchResult result
            (λ busy. HasLookedAt t token.new epoch (rec + 1) busy)
            (λ found. HasScanned t token.new epoch (OneBehind rec found)) }
    {
        let active = self.words.load::<Continues>(token, active_word(rec));
        // Its epoch word may be old, and another member may take the record meanwhile, but no section is open that was open before.
        if active == 0 {
            return Ok(first);
        }
        let found = self.words.load::<Continues>(token, epoch_word(rec));
        // Equal, and not at most: an active record with any other epoch is one that hasn't seen the last rise, or has seen a later one.
        if found == epoch {
            return Ok(Some(first.unwrap_or(rec)));
        }
        Err(found)
    }

    // Goes through the records in order, this member's own among them, up to one that is active with another epoch.
    fn look_at_all(&self, token: &mut Token<u64>, epoch: u64) -> Finding
        requires table { table token.old ≡ self.now }
        requires scanning { (t : TokenOf) × HasLookedAt t token.old epoch 0 None }
        ensures table { table token.new ≡ table token.old }
        ensures outcome { (t : TokenOf) → HasLookedAt t token.old epoch 0 None → HasScanned t token.new epoch result }
    {
        let mut first = None;
        for rec in 0..self.records {
            match self.look(token, epoch, rec, first) {
                Ok(busy) => first = busy,
                Err(found) => return Finding::OneBehind { rec, epoch: found },
            }
        }
        match first {
            None => Finding::AllInactive,
            Some(rec) => Finding::AllCurrent { rec },
        }
    }

    /// Dispatches what no section that is open can still reach, as far as one look at each record tells. The first half of
    /// `ck_epoch_poll`: where the answer is `Ready`, `advance` is the other half.
    pub fn scan(&self, m: &mut Member) -> Scan
        requires table { table m.old.token ≡ self.now }
        requires calls { m.old.calls < MOST_CALLS }
        ensures scan { (e : ℕ) × IsScan (records_of self.now.origin) e m.old result m.new }
        ensures same { IsSameMember m.old m.new }
        ensures depth { (state m.new.token).section ≡ (state m.old.token).section }
        ensures calls { m.new.calls ≡ m.old.calls + 1 }
        ensures part { IsRegistryToken m.new.token }
    {
        let epoch = self.start_scan(&mut m.token, m.rec, m.depth);
        // An open section has the epoch e or e - 1, or a later one, and what this member retired since it opened has at least that epoch. So
        // no open section is older than the items of e - 2. In the arithmetic, e is at least 4.
        let before = m.deferred.dispatch_list((epoch - 2) % 4);
        m.calls += 1;
        match self.look_at_all(&mut m.token, epoch) {
            // Each record was inactive at a moment since the load of e, and this member retired nothing since. So no section that is open
            // now opened before anything that is pending here was retired, whatever the global epoch is by now.
            Finding::AllInactive => {
                let rest = m.deferred.dispatch_all();
                Scan::Clear { n: before + rest }
            }
            Finding::AllCurrent { rec } => Scan::Ready {
                n: before,
                rec,
                epoch,
            },
            Finding::OneBehind { rec, epoch } => Scan::Blocked {
                n: before,
                rec,
                epoch,
            },
        }
    }

    /// Moves the global epoch on from the one of a scan that answered `Ready`, which was this member's last step, unless another member moved
    /// it first. The second half of `ck_epoch_poll`.
    pub fn advance(&self, m: &mut Member, epoch: u64) -> Advance
        requires table { table m.old.token ≡ self.now }
        requires calls { m.old.calls < MOST_CALLS }
        requires ready { (state m.old.token).activity ≡ ready epoch }
        ensures advance { IsAdvance epoch m.old result m.new }
        ensures same { IsSameMember m.old m.new }
        ensures depth { (state m.new.token).section ≡ (state m.old.token).section }
        ensures calls { m.new.calls ≡ m.old.calls + 1 }
        ensures part { IsRegistryToken m.new.token }
    {
        let found = self
            .words
            .exchange::<Brand>(&mut m.token, GLOBAL, epoch, epoch + 1);
        m.calls += 1;
        // Another member moved the epoch since the scan: a section may have opened since at the epoch of the scan, in a record that the scan
        // had passed, and what it may reach mustn't be dispatched.
        if found != epoch {
            return Advance::Raced { found };
        }
        // The epoch is e + 1 now, and no active record lags behind e: the list of e - 1 is two behind, as that of e - 2 was before.
        Advance::Moved {
            n: m.deferred.dispatch_list((epoch - 1) % 4),
        }
    }
}
