//! What was done with each token, as its journal. It exists in proofs alone: a call that puts an entry down loads one word.
ghost use Rattle.std.specs.Prelude.{◌≡◌, [], ◌∷◌, ◌++◌, IfOk};
ghost use Rattle.ck_history.specs.declared.event.WriterEvent.TheVariants.{Updated, Told};
ghost use Rattle.ck_history.specs.declared.event.ReaderEvent.TheVariants.{Answered, Reached};
ghost use Rattle.ck_snap.specs.Journal.{JournalView, no_events};

use atomic_table::{Play, Seat, Split, Table, TableRule};
use ck_history::{Key, ReaderEvent, Reply, Update, WriterEvent};
use std::alloc::{AllocError, Global};
use std::collections::LinkedList;
use std::marker::{Brand, Model, PhantomData};

/// What was done with a token: the events of a writer or those of a reader, and the places of the reader's answers. No value of it is made.
pub struct Events {
    pub written: LinkedList<WriterEvent<Update<Key>, Reply>>,
    pub read: LinkedList<ReaderEvent<Key, Option<u64>>>,
    pub places: LinkedList<u64>,
}

/// The rule of the word says nothing: each view is a journal.
pub struct Each;

impl TableRule<(), Events, ()> for Each {
    ghost use Rattle.ck_snap.specs.Journal.{no_events};

    ghost holds = { λ state key. Unit {0} };

    ghost first = { λ key. no_events };
}

/// What a step puts down.
pub trait Noted {
    ghost use Rattle.ck_snap.specs.declared.journal.Events.{Events};

    ghost after: { Events → Events };
}

impl Noted for Brand {
    ghost after = { λ events. events };
}

struct Notes<N> {
    of: PhantomData<N>,
}

impl<N: Noted> Play<(), Events> for Notes<N> {
    ghost then = { λ s v n w. w ≡ (N.after v.0, v.1) };
}

struct Fresh;

impl Split<Events> for Fresh {
    ghost left = { λ v. v };

    ghost right = { λ v. no_events };
}

/// A token's journal.
#[derive(Drop)]
pub struct Journal {
    seat: Seat<(), Events>,
}

impl Model for Journal {
    ghost use Rattle.std.specs.Prelude.{◌≡◌, []};
    ghost use Rattle.ck_snap.specs.Journal.{JournalView};

    ghost Value = { JournalView };

    ghost view = { λ j. record { journals = j.seat.table_id; events = j.seat.me.0 } };

    ghost invariant = { λ j. j.seat.me.1 ≡ [] };
}

/// The word under all journals of a dictionary.
#[derive(Drop)]
pub struct Journals {
    table: Table<(), Events, (), Each, Global>,
}

impl Model for Journals {
    ghost use Rattle.std.specs.Prelude.{◌≡◌};
    ghost use Rattle.atomic_table.specs.Seated.{TableId};

    ghost Value = { TableId };

    ghost view = { λ j. j.table.shared.table_id };

    ghost invariant = { λ j. j.table.shared.table_id.words ≡ 1 };
}

impl Journals {
    /// The word, and one journal with no event.
    pub fn new(alloc: Global) -> Result<(Journals, Journal), AllocError>
        ensures { IfOk result (λ r. r.1 ≡ record { journals = r.0; events = no_events }) }
    {
        let (table, seat) = Table::of_words(alloc, &[0], &())?;
        Ok((Journals { table }, Journal { seat }))
    }

    /// One more journal, with no event.
    pub fn another(&self, journal: &mut Journal) -> Journal
        requires { journal.old.journals ≡ self.now }
        ensures same { journal.new ≡ journal.old }
        ensures fresh { result ≡ record { journals = self.now; events = no_events } }
    {
        let seat = self.table.shared.split_seat::<Fresh>(&mut journal.seat);
        Journal { seat }
    }

    /// Puts down an update with its reply, by one load, as the next three do.
    pub fn note_update(&self, journal: &mut Journal, update: &Update<Key>, reply: Reply)
        requires { journal.old.journals ≡ self.now }
        ensures { journal.new ≡ record journal.old { events = record journal.old.events { written = journal.old.events.written ++ Updated update.now reply ∷ [] } } }
    {
        self.note::<Brand, (Update<Key>, Reply)>(journal, &(*update, reply));
    }

    /// Puts down that `answered` told of this reader that it has so many answers.
    pub fn note_told(&self, journal: &mut Journal, reader: u64, count: u64)
        requires { journal.old.journals ≡ self.now }
        ensures { journal.new ≡ record journal.old { events = record journal.old.events { written = journal.old.events.written ++ Told reader count ∷ [] } } }
    {
        self.note::<Brand, (u64, u64)>(journal, &(reader, count));
    }

    /// Puts down an answered look-up with its place.
    pub fn note_answer(&self, journal: &mut Journal, key: Key, answer: Option<u64>, place: u64)
        requires { journal.old.journals ≡ self.now }
        ensures { journal.new ≡ record journal.old { events = record journal.old.events { read = journal.old.events.read ++ Answered key answer ∷ []; places = journal.old.events.places ++ place ∷ [] } } }
    {
        self.note::<Brand, (Key, Option<u64>, u64)>(journal, &(key, answer, place));
    }

    /// Puts down that `reached` was asked for `n` updates, and what it told.
    pub fn note_reached(&self, journal: &mut Journal, n: u64, told: Result<(), u64>)
        requires { journal.old.journals ≡ self.now }
        ensures { journal.new ≡ record journal.old { events = record journal.old.events { read = journal.old.events.read ++ Reached n told ∷ [] } } }
    {
        self.note::<Brand, (u64, Result<(), u64>)>(journal, &(n, told));
    }

    fn note<N: Noted, X>(&self, journal: &mut Journal, about: &X)
        requires { journal.old.journals ≡ self.now }
        ensures { journal.new ≡ record journal.old { events = N.after journal.old.events } }
    {
        let _ = about; // only contracts read it: the caller takes the event from it
        self.table.shared.load::<Notes<N>>(&mut journal.seat, 0);
    }
}
