use std::marker::Model;

/// The members of a list as they were committed, in order: the answer to an `all` line.
#[derive(Debug, Drop)]
pub struct View {
    pub members: Vec<u64>,
}

impl Model for View {
    ghost use Rattle.std.specs.Prelude.{ℕ, List};

    ghost Value = { List ℕ };

    ghost view = { λ v. v.members.items };
}
