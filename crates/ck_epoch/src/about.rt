//! What a domain is told when it is made.

/// The structure over the domain's words, and how many records there are, each with a pass of its own.
#[derive(Drop)]
pub struct About<C> {
    pub client: C,
    pub records: u64,
}
