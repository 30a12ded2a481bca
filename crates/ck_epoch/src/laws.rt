//! The law of epochs, for callers that reason about runs.
ghost use Rattle.ck_epoch.specs.Epochs.{Reclamation};

/// Every true run of the calls of a domain, whatever its client, is safe: at no moment of it an item has been dispatched while a section
/// that is older than the item is open. At each moment the epochs stand as they must, and after `synchronize` or `barrier` no section is
/// open that was open at the call.
pub fn reclamation_law<C>()
    ensures { Reclamation C }
{}
