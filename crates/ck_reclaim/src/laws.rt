//! The law of a structure's pieces, for callers that reason about runs.
ghost use Rattle.ck_reclaim.specs.Reclaim.{RetiresWhatItUnlinks, ReclaimsPieces};

/// A structure in a domain with the client `C`, as far as its writer links pieces of its words. It is about runs alone, so no value of such a
/// type is made.
pub trait Structure<C> {
    ghost use Rattle.ck_reclaim.specs.Pieces.{Pieces};

    // What its pieces are, and which of them are linked.
    ghost pieces: { Pieces C };
}

/// Where the writer unlinks no piece without retiring it: in every true run, at each moment, a piece that was linked since a section opened
/// that is still open is linked, or a retirement of it is pending. So words that are free by the writer's own account are none of a piece
/// that a reader within a section may have met. And a pass that loads a word which is read within sections alone has one open.
pub fn pieces_law<C, S: Structure<C>>()
    requires retires { RetiresWhatItUnlinks S.pieces }
    ensures { ReclaimsPieces S.pieces }
{
    ck_epoch::reclamation_law::<C>();
}
