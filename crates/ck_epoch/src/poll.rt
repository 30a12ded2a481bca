//! `poll`: one look at each record, and what may be dispatched by what it finds.
ghost use Rattle.std.specs.Prelude.{◌≡◌, ◌+◌, ◌<◌, ◌≤◌, ◌^◌, ◌++◌, length, None, MatchResult};
ghost use Rattle.ck_run.specs.Tokens.{table, number};
ghost use Rattle.ck_epoch.specs.declared.answers.Scan.TheVariants.{Behind};
ghost use Rattle.ck_epoch.specs.State.{Token as TokenOf, state, free, queue, records_of};
ghost use Rattle.ck_epoch.specs.Lists.{homes, Answers};
ghost use Rattle.ck_epoch.specs.Ends.{IsDomainToken, IsWriting};
ghost use Rattle.ck_epoch.specs.Scan.{IsScanning, Did};
ghost use Rattle.ck_epoch.specs.Calls.{Polls, dispatched_items, pending_after, count_of, epoch_after};

use crate::about::About;
use crate::answers::{Poll, Scan};
use crate::client::Client;
use crate::domain::Domain;
use crate::ends::Writer;
use crate::item::Item;
use crate::layout::{GLOBAL, active_word, epoch_word};
use ck_run::{Continues, Token};
use ck_words::Back;
use std::marker::Brand;

impl<C: Client> Domain<C> {
    // The first step of a poll.
    fn start_poll(&self, token: &mut Token<About<C>>) -> u64
        requires table { table token.old ≡ self.now }
        requires writer { IsWriting C.meaning token.old × ((state token.old).stage ≡ free) }
        requires calls { (state token.old).calls < 2 ^ 40 }
        ensures bounds { (4 ≤ result) × (result < 2 ^ 42) }
        ensures scanning { IsScanning C.meaning token.old token.new result 0 None }
    {
        self.words.load::<Brand>(token, GLOBAL)
    }

    // Looks at one record. Ok passes on the first record that was active, and Err has another epoch, with which this one is active.
    fn look(
        &self,
        token: &mut Token<About<C>>,
        epoch: u64,
        rec: u64,
        first: Option<u64>,
    ) -> Result<Option<u64>, u64>
        requires table { table token.old ≡ self.now }
        requires rec { rec < records_of self.now.origin }
        requires scanning { (t : TokenOf C) × IsScanning C.meaning t token.old epoch rec first }
        ensures table { table token.new ≡ table token.old }
        ensures outcome { (t : TokenOf C) → IsScanning C.meaning t token.old epoch rec first → MatchResult result
            (λ busy. IsScanning C.meaning t token.new epoch (rec + 1) busy)
            (λ found. Did C.meaning t token.new epoch (Behind rec found)) }
    {
        let active = self.words.load::<Continues>(token, active_word(rec));
        // Its epoch word may be old, but no section is open.
        if active == 0 {
            return Ok(first);
        }
        let found = self.words.load::<Continues>(token, epoch_word(rec));
        // Equal, and not at most: an active record with any other epoch is one that hasn't seen the last rise.
        if found == epoch {
            return Ok(Some(first.unwrap_or(rec)));
        }
        Err(found)
    }

    // Goes through the records in order, up to one that is active with another epoch. Where there is none, but an active one, the global
    // epoch rises.
    fn scan(&self, token: &mut Token<About<C>>, epoch: u64) -> Scan
        requires table { table token.old ≡ self.now }
        requires bound { epoch < 2 ^ 42 }
        requires scanning { (t : TokenOf C) × IsScanning C.meaning t token.old epoch 0 None }
        ensures table { table token.new ≡ table token.old }
        ensures outcome { (t : TokenOf C) → IsScanning C.meaning t token.old epoch 0 None → Did C.meaning t token.new epoch result }
    {
        let mut first = None;
        for rec in 0..self.about.records {
            match self.look(token, epoch, rec, first) {
                Ok(busy) => first = busy,
                Err(found) => return Scan::Behind { rec, epoch: found },
            }
        }
        match first {
            None => Scan::Clear,
            Some(rec) => {
                // This writer alone moves the epoch, so the exchange finds what it loaded.
                self.words
                    .exchange::<Continues>(token, GLOBAL, epoch, epoch + 1);
                Scan::Current { rec }
            }
        }
    }

    /// Dispatches what no section that is open can still reach, as far as one look at each record tells, and moves the global epoch
    /// where each active record has it, as `ck_epoch_poll`, but with three answers.
    pub fn poll<F: Fn(Item) -> Back>(&self, writer: &mut Writer<C, F>) -> Poll
        requires table { table writer.old.token ≡ self.now }
        requires calls { writer.old.calls < 2 ^ 40 }
        requires handler { Answers (C.meaning.retires self.now.origin.config.client) (C.meaning.home self.now.origin.config.client) (F.pre writer.old.handler) (F.post writer.old.handler) }
        ensures same { (table writer.new.token ≡ table writer.old.token) × (number writer.new.token ≡ number writer.old.token) × (writer.new.room ≡ writer.old.room) × (writer.new.handler ≡ writer.old.handler) × (writer.new.tally ≡ writer.old.tally) }
        ensures steps { Polls (records_of self.now.origin) (state writer.old.token).epoch writer.old.token result writer.new.token }
        ensures waiting { writer.new.waiting ≡ writer.old.waiting ++ homes (C.meaning.home self.now.origin.config.client) (dispatched_items (state writer.old.token).epoch result (queue (state writer.old.token).pending)) }
        ensures dispatched { queue (state writer.new.token).dispatched ≡ queue (state writer.old.token).dispatched ++ dispatched_items (state writer.old.token).epoch result (queue (state writer.old.token).pending) }
        ensures pending { queue (state writer.new.token).pending ≡ pending_after (state writer.old.token).epoch result (queue (state writer.old.token).pending) }
        ensures count { count_of result ≡ length (dispatched_items (state writer.old.token).epoch result (queue (state writer.old.token).pending)) }
        ensures epoch { (state writer.new.token).epoch ≡ epoch_after (state writer.old.token).epoch result }
        ensures calls { writer.new.calls ≡ writer.old.calls + 1 }
        ensures part { IsDomainToken C.meaning writer.new.token }
    {
        self.poll_from(writer).1
    }

    /// As `poll`, and tells the global epoch that this call loaded. Where it moved that, each active record had this one.
    pub fn poll_from<F: Fn(Item) -> Back>(&self, writer: &mut Writer<C, F>) -> (u64, Poll)
        requires table { table writer.old.token ≡ self.now }
        requires calls { writer.old.calls < 2 ^ 40 }
        requires handler { Answers (C.meaning.retires self.now.origin.config.client) (C.meaning.home self.now.origin.config.client) (F.pre writer.old.handler) (F.post writer.old.handler) }
        ensures loaded { result.0 ≡ (state writer.old.token).epoch }
        ensures same { (table writer.new.token ≡ table writer.old.token) × (number writer.new.token ≡ number writer.old.token) × (writer.new.room ≡ writer.old.room) × (writer.new.handler ≡ writer.old.handler) × (writer.new.tally ≡ writer.old.tally) }
        ensures steps { Polls (records_of self.now.origin) (state writer.old.token).epoch writer.old.token result.1 writer.new.token }
        ensures waiting { writer.new.waiting ≡ writer.old.waiting ++ homes (C.meaning.home self.now.origin.config.client) (dispatched_items (state writer.old.token).epoch result.1 (queue (state writer.old.token).pending)) }
        ensures dispatched { queue (state writer.new.token).dispatched ≡ queue (state writer.old.token).dispatched ++ dispatched_items (state writer.old.token).epoch result.1 (queue (state writer.old.token).pending) }
        ensures pending { queue (state writer.new.token).pending ≡ pending_after (state writer.old.token).epoch result.1 (queue (state writer.old.token).pending) }
        ensures count { count_of result.1 ≡ length (dispatched_items (state writer.old.token).epoch result.1 (queue (state writer.old.token).pending)) }
        ensures epoch { (state writer.new.token).epoch ≡ epoch_after (state writer.old.token).epoch result.1 }
        ensures calls { writer.new.calls ≡ writer.old.calls + 1 }
        ensures part { IsDomainToken C.meaning writer.new.token }
    {
        let client = &self.about.client;
        let epoch = self.start_poll(&mut writer.token);
        // An open section has the epoch e or e - 1, and what was retired since it opened has at least that epoch. So no open section is
        // older than the items of e - 2. In the arithmetic, e is at least 4.
        let before = writer
            .backlog
            .dispatch_list(client, &writer.token, (epoch - 2) % 4, &writer.handler);
        writer.calls += 1;
        match self.scan(&mut writer.token, epoch) {
            // Each record was inactive at a moment since the load of e, and the writer, which alone retires, retired nothing since. So no
            // section that is open now opened before anything that is pending was retired.
            Scan::Clear => {
                let rest = writer
                    .backlog
                    .dispatch_all(client, &writer.token, &writer.handler);
                (epoch, Poll::Clear { n: before + rest })
            }
            // The epoch is e + 1 now, and no active record lags behind e: the list of e - 1 is two behind, as that of e - 2 was before.
            Scan::Current { rec } => {
                let rest = writer
                    .backlog
                    .dispatch_list(client, &writer.token, (epoch - 1) % 4, &writer.handler);
                let moved = Poll::Moved {
                    n: before + rest,
                    rec,
                };
                (epoch, moved)
            }
            Scan::Behind { rec, epoch: found } => {
                let blocked = Poll::Blocked {
                    n: before,
                    rec,
                    epoch: found,
                };
                (epoch, blocked)
            }
        }
    }
}
