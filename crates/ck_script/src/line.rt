/// A line's number in its file, from 1, and what it says.
#[derive(Clone, Copy, PartialEq, Eq, Debug)]
pub struct Numbered<T> {
    pub line: u64,
    pub what: T,
}

/// What a line of an update file says.
#[derive(Clone, Copy, PartialEq, Eq, Debug)]
pub enum UpLine<C> {
    /// An update.
    Call(C),
    /// Go on only when query file `file`, from 1, has answered at least `n` queries.
    Hold { file: u64, n: u64 },
}

/// What a line of a query file says.
#[derive(Clone, Copy, PartialEq, Eq, Debug)]
pub enum AskLine<A> {
    /// A query.
    Ask(A),
    /// Go on only when at least `n` updates are applied.
    Wait { n: u64 },
}
