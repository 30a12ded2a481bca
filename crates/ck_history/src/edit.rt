//! Edits of a list of members, and their replies.

/// How many members a list has at most.
pub const MOST_MEMBERS: u64 = 4_096;

/// An edit of a list that readers see as it was last committed.
#[derive(Clone, Copy, PartialEq, Eq, Debug)]
pub enum Edit {
    /// Appends the member to the pending list, as `ck_array_put`, but a member may stand there already.
    Add(u64),
    /// Takes the first such member out of the pending list and puts the last member into its place, as `ck_array_remove`.
    Drop(u64),
    /// Makes the pending list the committed one, as `ck_array_commit`.
    Commit,
}

/// The reply to an edit.
#[derive(Clone, Copy, PartialEq, Eq, Debug)]
pub enum EditReply {
    /// The member was appended.
    Added,
    /// The pending list has as many members as it may, and nothing changed.
    Full,
    /// The member was taken out.
    Dropped,
    /// The pending list has no such member, and nothing changed.
    Missing,
    /// The committed list is the pending one now.
    Committed,
}
