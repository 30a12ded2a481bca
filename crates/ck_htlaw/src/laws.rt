//! The law of a table, for callers that reason about runs.
ghost use Rattle.ck_epoch.specs.State.{Origin};
ghost use Rattle.ck_htlaw.specs.Host.{host};
ghost use Rattle.ck_htlaw.specs.Law.{TableLaw};
ghost use Rattle.ck_htlaw.specs.Reached.{ReachedLaw};

use crate::client::HtClient;
use ck_epoch::Within;
use ck_reclaim::Structure;
use ck_signal::Signals;
use std::marker::PhantomData;

/// The regions of a table as pieces of the words of a domain whose client is `D`. No value of it is made.
pub struct Regions<D> {
    of: PhantomData<D>,
}

impl<D: Within<HtClient>> Structure<D> for Regions<D> {
    ghost use Rattle.ck_htlaw.specs.Host.{host};
    ghost use Rattle.ck_htlaw.specs.Regions.{regions};

    ghost pieces = { regions (host D.meaning D.place D.part) };
}

/// In every true run of the calls of a domain whose client holds a table, at each moment: the words of the table's present region stand for
/// the map after the updates that have taken place, and the replies are that map's. Each look answers what the map gave at a moment from its
/// first step on until its last, at a place not below that of its first step. A look that doesn't answer has loaded two numbers from one
/// counter, of which the second is greater. A region that was replaced keeps its words under the looks that began with it, and one that the
/// writer takes shares no word with one that was retired since a section opened that is still open.
pub fn table_law<D: Within<HtClient>>()
    ensures { (origin : Origin D) → TableLaw (host D.meaning D.place D.part) origin }
{
    ck_epoch::reclamation_law::<D>();
    ck_reclaim::pieces_law::<D, Regions<D>>();
}

/// With signals: after `reached` told a reader of n updates, its looks answer what the map gave after at least n updates.
pub fn reached_law()
    ensures { ReachedLaw }
{
    ck_signal::signals_law::<HtClient>();
    table_law::<Signals<HtClient>>();
}
