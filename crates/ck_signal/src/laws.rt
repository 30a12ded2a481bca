//! What the signal words tell in every true run.
ghost use Rattle.ck_signal.specs.Told.{TrueSignals};

use ck_epoch::Client;

/// In every true run of the calls of a domain whose client has signals, at each moment: `applied` is at most the length of the log, and
/// `answered` of a reader at most the number of its answers. So the updates that `reached` told of are in the log from then on, and the
/// answers that `answered` told of were given, at places not above the length of the log.
pub fn signals_law<C: Client>()
    ensures { TrueSignals C.meaning }
{}
