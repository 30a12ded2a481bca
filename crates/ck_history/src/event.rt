//! What is put down of the tokens of a structure that has one writer and many readers, in the order of the calls. Only contracts speak of
//! these events: no run makes one.

/// An event of the writer, whose updates are of the type `U` and their replies of the type `R`.
pub enum WriterEvent<U, R> {
    /// This update was made, with this reply.
    Updated(U, R),
    /// `answered` told of this reader that it has so many answers.
    Told(u64, u64),
}

/// An event of a reader, whose queries are of the type `Q` and their answers of the type `A`.
pub enum ReaderEvent<Q, A> {
    /// This query had this answer. A look-up that has to be made again is no event.
    Answered(Q, A),
    /// `reached` was asked for so many updates, with this result.
    Reached(u64, Result<(), u64>),
}
