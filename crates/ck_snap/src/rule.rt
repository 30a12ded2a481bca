//! The rule of the two copies: what is published is the fold of the published updates.
use crate::snapshot::Snapshot;
use crate::version::Version;
use atomic_table::{Join, Split};
use crossbeam_utils::rule::{Outcome, Protocol};

/// What an end of the two copies knows: how often it entered or published, and the version that it saw then. No value of it is made.
pub struct EndView {
    pub enters: u64,
    pub seen: Option<Version>,
}

/// The rule: the published copy is the map after its version's updates, and what each end has seen is a prefix of these.
pub struct Folds;

impl Protocol<Snapshot, EndView> for Folds {
    ghost use Rattle.ck_snap.specs.Copies.{Keeps, newcomer};

    ghost holds = { λ x views. Keeps x views };

    ghost first = { newcomer };
}

/// A ruled enter or a ruled publish: the version that is shown after it has been seen, and it comes after what was seen before.
pub struct Sees;

impl Outcome<Snapshot, EndView> for Sees {
    ghost use Rattle.ck_snap.specs.Copies.{Shows};

    ghost then = { λ v x y w. Shows v y w };
}

/// A new reader learns what the writer knows.
pub struct Passes;

impl Split<EndView> for Passes {
    ghost left = { λ v. v };

    ghost right = { λ v. v };
}

impl Join<EndView> for Passes {
    ghost use Rattle.ck_snap.specs.Copies.{newcomer};

    ghost both = { λ v w. record { enters = v.enters; seen = w.seen } };

    ghost spent = { newcomer };
}
