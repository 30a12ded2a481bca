//! What holds of every true run, for callers that reason about runs.
ghost use Rattle.ck_epoch.specs.State.{Origin};
ghost use Rattle.ck_htlaw.specs.Host.{host};
ghost use Rattle.ck_htread.specs.Roots.{RootsLaw};
ghost use Rattle.ck_htread.specs.Answered.{PlacesLaw};

use ck_epoch::Within;
use ck_htlaw::{HtClient, Regions};

/// At each moment of every true run of the calls of a domain whose client holds a table, the table's root is that of a region of its arena,
/// of 8 to 2^19 slots.
pub fn roots_law<D: Within<HtClient>>()
    ensures { (origin : Origin D) → RootsLaw (host D.meaning D.place D.part) origin }
{
    ck_epoch::reclamation_law::<D>();
    ck_reclaim::pieces_law::<D, Regions<D>>();
}

/// In every true run of the calls of a domain whose client holds a table, the answered looks of each reader have places: the answer with
/// the number i, from 0, was given by a look of the run before which i answers were given, and its place is the number of updates that had
/// taken place at a moment of that look at which the map gave it. Places don't fall. At each moment of the run, those of the answers that
/// were given before are at most the number of updates that have taken place, and those of the looks that begin later at least that.
pub fn places_law<D: Within<HtClient>>()
    ensures { (origin : Origin D) → PlacesLaw (host D.meaning D.place D.part) origin }
{
    ck_htlaw::table_law::<D>();
}
