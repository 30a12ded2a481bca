//! The law of a registry, for callers that reason about runs.
ghost use Rattle.ck_registry.specs.Epochs.{RegistryLaw};

/// Every true run of the calls of a registry is safe: at no moment of it has an item of any member been dispatched while a section that is
/// older than the item is open in any record, whoever held it. At each moment the epochs stand as they must, and a record is held by at
/// most one member.
pub fn registry_law()
    ensures { RegistryLaw }
{}
