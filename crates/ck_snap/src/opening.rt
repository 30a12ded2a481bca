//! How a dictionary begins.
ghost use Rattle.std.specs.Prelude.{◌≡◌, ◌+◌, ◌≤◌, [], IfOk, vec_len};
ghost use Rattle.ck_snap.specs.Tokens.{fresh_writer, fresh_pass, AreFreshSnapPasses};
ghost use Rattle.ck_snap.specs.Journal.{JournalView, no_events};

use crate::journal::{Journal, Journals};
use crate::publisher::Publisher;
use crate::tokens::{Snap, SnapPass, SnapWriter};
use std::alloc::{AllocError, Global};
use std::sync::Wait;

impl Snap {
    /// A dictionary with no pair, its writer, and a pass for each of 1 to 64 readers. Both copies have room for 65,536 pairs.
    /// It publishes once, by which the passes learn of its log.
    pub fn new<R: Wait>(
        rt: &R,
        alloc: Global,
        readers: u64,
    ) -> Result<(Snap, SnapWriter, Vec<SnapPass>), AllocError>
        requires { (1 ≤ readers) × (readers ≤ 64) }
        ensures readers { IfOk result (λ r. r.0.readers ≡ readers) }
        ensures writer { IfOk result (λ r. r.1 ≡ fresh_writer r.0) }
        ensures passes { IfOk result (λ r. (vec_len r.2 ≡ readers) × AreFreshSnapPasses r.0 0 r.2.items) }
    {
        let (journals, mut journal) = Journals::new(alloc)?;
        let (mut publisher, log) = Publisher::new(rt, alloc, readers)?;
        let snap = Snap {
            log,
            journals,
            readers,
        };
        match snap.passes(alloc, &mut publisher, &mut journal) {
            Ok(passes) => {
                let writer = SnapWriter {
                    publisher,
                    journal,
                    calls: 0,
                };
                Ok((snap, writer, passes))
            }
            Err(_) => {
                publisher.finish(rt);
                Err(AllocError)
            }
        }
    }

    /// A pass for each reader, in order.
    fn passes(
        &self,
        alloc: Global,
        publisher: &mut Publisher,
        journal: &mut Journal,
    ) -> Result<Vec<SnapPass>, AllocError>
        requires publisher { publisher.old ≡ record { book = self.now.origin.log; log = [] } }
        requires journal { journal.old ≡ record { journals = self.now.origin.journals; events = no_events } }
        ensures same { (publisher.new ≡ publisher.old) × (journal.new ≡ journal.old) }
        ensures passes { IfOk result (λ v. (vec_len v ≡ self.now.readers) × AreFreshSnapPasses self.now 0 v.items) }
    {
        let mut passes = Vec::new(alloc);
        for number in 0..self.readers {
            passes.push(self.pass(publisher, journal, number)?)?;
        }
        Ok(passes)
    }

    fn pass(
        &self,
        publisher: &mut Publisher,
        journal: &mut Journal,
        number: u64,
    ) -> Result<SnapPass, AllocError>
        requires publisher { publisher.old ≡ record { book = self.now.origin.log; log = [] } }
        requires journal { journal.old ≡ record { journals = self.now.origin.journals; events = no_events } }
        ensures same { (publisher.new ≡ publisher.old) × (journal.new ≡ journal.old) }
        ensures pass { IfOk result (λ p. p ≡ fresh_pass self.now number) }
    {
        Ok(SnapPass {
            subscriber: publisher.subscriber()?,
            number,
            journal: self.journals.another(journal),
            calls: 0,
        })
    }
}
