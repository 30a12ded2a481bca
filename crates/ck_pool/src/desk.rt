//! The desk: one word and one slot for each query file. A worker that turns a file's word from 0 to 1 has that file's eye.
ghost use Rattle.std.specs.Prelude.{◌≡◌, ◌+◌, ◌<◌, ◌∷◌, [], length, map, slice_get, IfOk, MatchOption, Some};
ghost use Rattle.ck_pool.specs.Desk.{all_parts, occurrences, first_known, fewer, known_of_both, IsClerkOf, fresh_clerk};

use crate::known::Known;
use atomic_table::{Join, Play, Seat, Split, Table, TableRule};
use std::alloc::{AllocError, Global};
use std::marker::{Model, PhantomData};
use std::snapshot::Snapshot;

/// The rule of a desk with these eyes.
pub struct DeskRule<E> {
    of: PhantomData<E>,
}

impl<E> TableRule<Option<E>, Known<E>, Snapshot<Vec<E>>> for DeskRule<E> {
    ghost use Rattle.ck_pool.specs.Desk.{IsDesk, first_known};

    ghost holds = { λ key s. IsDesk key.value.items s };

    ghost first = { λ key. first_known key.value.items };
}

/// An exchange of a file's word, which takes the slot of that file.
struct Takes;

impl<E> Play<Option<E>, Known<E>> for Takes {
    ghost use Rattle.ck_pool.specs.Desk.{TookEye};

    ghost then = { λ s m n w. TookEye s.word m n w };
}

/// A load by which the slot that was taken is given back, empty. A seat that holds a slot can't be joined.
struct GivesBack;

impl<E> Play<Option<E>, Known<E>> for GivesBack {
    ghost use Rattle.ck_pool.specs.Desk.{GaveBack};

    ghost then = { λ s m n w. GaveBack m w };
}

/// One more clerk.
struct OnePart;

impl<E> Split<Known<E>> for OnePart {
    ghost use Rattle.ck_pool.specs.Desk.{fewer, one_part};

    ghost left = { λ v. fewer v };

    ghost right = { λ v. one_part v };
}

/// A clerk comes back.
struct BothParts;

impl<E> Join<Known<E>> for BothParts {
    ghost use Rattle.ck_pool.specs.Desk.{known_of_both, spent};

    ghost both = { λ v w. known_of_both v w };

    ghost spent = { spent };
}

/// What a task takes eyes with.
#[derive(Drop)]
pub struct Clerk<E> {
    seat: Seat<Option<E>, Known<E>>,
}

impl<E> Model for Clerk<E> {
    ghost use Rattle.std.specs.Prelude.{◌≡◌, []};
    ghost use Rattle.ck_pool.specs.Desk.{ClerkView};

    ghost Value = { ClerkView E };

    ghost view = { λ c. record { id = c.seat.table_id; known = c.seat.me.0 } };

    ghost invariant = { λ c. c.seat.me.1 ≡ [] };
}

/// The table of the words and slots, under the rule of the desk. Contracts see which table it is and the eyes that were put there.
#[derive(Drop)]
pub struct Desk<E> {
    table: Table<Option<E>, Known<E>, Snapshot<Vec<E>>, DeskRule<E>, Global>,
}

impl<E> Model for Desk<E> {
    ghost use Rattle.std.specs.Prelude.{◌≡◌, length};
    ghost use Rattle.ck_pool.specs.Desk.{DeskView};

    ghost Value = { DeskView E };

    ghost view = { λ d. record { id = d.table.shared.table_id; eyes = d.table.shared.key.value.items } };

    ghost invariant = { λ d. (d.table.shared.table_id.words ≡ length d.table.shared.key.value.items) × (d.table.shared.table_id.slots ≡ length d.table.shared.key.value.items) };
}

// A slot for each eye.
fn slots_of<E: Drop>(alloc: Global, eyes: Vec<E>) -> Result<Vec<Option<E>>, AllocError>
    ensures { IfOk result (λ slots. slots.items ≡ map (λ e. Some e) eyes.items) }
{
    let mut slots = Vec::new(alloc);
    for eye in eyes {
        slots.push(Some(eye))?;
    }
    Ok(slots)
}

impl<E> Desk<E> {
    /// A desk with these eyes, and a clerk with all parts.
    pub fn new(alloc: Global, eyes: Vec<E>) -> Result<(Desk<E>, Clerk<E>), AllocError>
    where
        E: Drop,
        ensures { IfOk result (λ r. (r.0.eyes ≡ eyes.items) × (r.1 ≡ record { id = r.0.id; known = first_known eyes.items })) }
    {
        let given = Snapshot::of(&eyes);
        let words = vec![in alloc; 0u64; eyes.len()]?;
        let slots = slots_of(alloc, eyes)?;
        match Table::new(alloc, &words, slots, &given) {
            Ok((table, seat)) => Ok((Desk { table }, Clerk { seat })),
            Err(_) => Err(AllocError),
        }
    }

    /// One more clerk, with one part.
    pub fn another(&self, clerk: &mut Clerk<E>) -> Clerk<E>
        requires clerk { IsClerkOf self.now clerk.old }
        requires parts { 1 < clerk.old.known.parts }
        requires files { 0 < length self.now.eyes }
        ensures clerk { clerk.new ≡ record clerk.old { known = fewer clerk.old.known } }
        ensures new { result ≡ fresh_clerk self.now }
    {
        let seat = self.table.shared.split_seat::<OnePart>(&mut clerk.seat);
        Clerk { seat }
    }

    /// A clerk comes back, with what it has taken.
    pub fn join(&self, clerk: &mut Clerk<E>, other: Clerk<E>)
        requires clerks { IsClerkOf self.now clerk.old × IsClerkOf self.now other }
        requires files { 0 < length self.now.eyes }
        ensures { clerk.new ≡ record clerk.old { known = known_of_both clerk.old.known other.known } }
    {
        let Clerk { seat } = other;
        self.table
            .shared
            .join_seat::<BothParts>(&mut clerk.seat, seat);
    }

    /// Takes the eye of a file, as it was put on the desk. `None` where it was taken: then who has all parts has the file.
    pub fn take(&self, clerk: &mut Clerk<E>, file: usize) -> Option<E>
        requires clerk { IsClerkOf self.now clerk.old }
        requires file { file < length self.now.eyes }
        ensures clerk { IsClerkOf self.now clerk.new × (clerk.new.known.parts ≡ clerk.old.known.parts) }
        ensures took { MatchOption result
            ((clerk.new ≡ clerk.old) × (clerk.old.known.parts ≡ all_parts → occurrences file clerk.old.known.took ≡ 1))
            (λ e. (slice_get self.now.eyes file ≡ Some e) × (clerk.new.known.took ≡ file ∷ clerk.old.known.took)) }
    {
        let shared = &self.table.shared;
        let found = shared.compare_exchange::<Takes>(&mut clerk.seat, file, 0, 1);
        if found != 0 {
            return None;
        }
        let eye = shared.exchange(&mut clerk.seat, file, None);
        shared.load::<GivesBack>(&mut clerk.seat, file);
        eye
    }
}
