//! What the end of a table rests on.
ghost use Rattle.ck_epoch.specs.State.{Origin};
ghost use Rattle.ck_signal.specs.declared.signals.Signals.{Signals as SignalsOf};
ghost use Rattle.ck_htlaw.specs.declared.client.HtClient.{HtClient as ClientOf};
ghost use Rattle.ck_ht.specs.Settled.{SettledLaw};

use ck_htlaw::{HtClient, Regions};
use ck_signal::Signals;

// With the writer between two updates, its log has all updates that have taken place.
pub(crate) fn settled_law()
    ensures { (origin : Origin (SignalsOf ClientOf)) → SettledLaw origin }
{
    ck_epoch::reclamation_law::<Signals<HtClient>>();
    ck_reclaim::pieces_law::<Signals<HtClient>, Regions<Signals<HtClient>>>();
}
