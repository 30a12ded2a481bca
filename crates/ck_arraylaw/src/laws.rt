//! The law of an array, for callers that reason about runs.
ghost use Rattle.ck_epoch.specs.State.{Origin};
ghost use Rattle.ck_arraylaw.specs.Host.{host};
ghost use Rattle.ck_arraylaw.specs.Law.{ArrayLaw};
ghost use Rattle.ck_arraylaw.specs.Reached.{ReachedLaw};

use crate::client::ArrayClient;
use ck_epoch::Within;
use ck_reclaim::Structure;
use ck_signal::Signals;
use std::marker::PhantomData;

/// The regions of an array as pieces of the words of a domain whose client is `D`. No value of it is made.
pub struct Regions<D> {
    of: PhantomData<D>,
}

impl<D: Within<ArrayClient>> Structure<D> for Regions<D> {
    ghost use Rattle.ck_arraylaw.specs.Host.{host};
    ghost use Rattle.ck_arraylaw.specs.Regions.{regions};

    ghost pieces = { regions (host D.meaning D.place D.part) };
}

/// In every true run of the calls of a domain whose client holds an array, at each moment: the words of the array's present region stand for
/// the committed list after the edits that have taken place. Each `all` answers the list that was committed at its first step. The region
/// with which it began keeps its words, and one that the writer takes shares no word with one that was retired since a section opened that
/// is still open.
pub fn array_law<D: Within<ArrayClient>>()
    ensures { (origin : Origin D) → ArrayLaw (host D.meaning D.place D.part) origin }
{
    ck_epoch::reclamation_law::<D>();
    ck_reclaim::pieces_law::<D, Regions<D>>();
}

/// With signals: after `reached` told a reader of n edits, each `all` answers the list that was committed after some number of edits, of
/// which there are at least n.
pub fn reached_law()
    ensures { ReachedLaw }
{
    ck_signal::signals_law::<ArrayClient>();
    array_law::<Signals<ArrayClient>>();
}
