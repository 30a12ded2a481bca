//! The dictionary, its writer and its passes.
use crate::journal::{Journal, Journals};
use crate::log::LogWord;
use crate::publisher::Publisher;
use crate::subscriber::Subscriber;
use std::marker::Model;

/// A dictionary of at most 65,536 pairs for one writer and up to 64 readers.
#[derive(Drop)]
pub struct Snap {
    pub(crate) log: LogWord,
    pub(crate) journals: Journals,
    pub(crate) readers: u64,
}

impl Model for Snap {
    ghost use Rattle.ck_snap.specs.Tokens.{Dictionary};

    ghost Value = { Dictionary };

    ghost view = { λ s. record { origin = record { log = s.log; journals = s.journals }; readers = s.readers } };
}

/// The token that updates. It isn't `Drop`: end it by `finish`, as a writer of `left_right` by `take`.
pub struct SnapWriter {
    pub(crate) publisher: Publisher,
    pub(crate) journal: Journal,
    pub(crate) calls: u64,
}

impl Model for SnapWriter {
    ghost use Rattle.ck_snap.specs.Tokens.{WriterView};
    ghost use Rattle.ck_snap.specs.Ends.{IsSnapWriter};

    ghost Value = { WriterView };

    ghost view = { λ w. record { origin = record { log = w.publisher.book; journals = w.journal.journals }; done = w.journal.events.written; published = w.publisher.log; calls = w.calls } };

    ghost invariant = { λ w. IsSnapWriter w };
}

/// A token that looks keys up, for one reader.
#[derive(Drop)]
pub struct SnapPass {
    pub(crate) subscriber: Subscriber,
    pub(crate) number: u64,
    pub(crate) journal: Journal,
    pub(crate) calls: u64,
}

impl Model for SnapPass {
    ghost use Rattle.ck_snap.specs.Tokens.{PassView};
    ghost use Rattle.ck_snap.specs.Ends.{IsSnapPass};

    ghost Value = { PassView };

    ghost view = { λ p. record { origin = record { log = p.subscriber.book; journals = p.journal.journals }; number = p.number; seen = p.subscriber.log; done = p.journal.events.read; places = p.journal.events.places; enters = p.subscriber.enters; calls = p.calls } };

    ghost invariant = { λ p. IsSnapPass p };
}
