//! The snapshot dictionary as one that the pool runs on.
use crate::dict::Dict;
use ck_history::{Key, Look, Reply, Update};
use ck_script::{AskLine, Lines, UpLine};
use ck_snap::{Snap, SnapPass, SnapWriter};
use std::alloc::{AllocError, Global};
use std::sync::Wait;

impl Dict for Snap {
    ghost use Rattle.ck_pool.specs.Snapshots.{snap_hand, snap_eye};

    type Call = Update<Key>;

    type Reply = Reply;

    type Ask = Key;

    type Answer = Option<u64>;

    type UpFile = Lines<UpLine<Update<Key>>>;

    type AskFile = Lines<AskLine<Key>>;

    type Hand = SnapWriter;

    type Eye = SnapPass;

    ghost hands = { λ snap. snap_hand snap };

    ghost eyes = { λ snap. snap_eye snap };

    ghost readers = { λ snap. snap.readers };

    ghost numbered = { λ snap pass ready. ready.number };

    fn update<R: Wait>(
        &self,
        rt: &R,
        _alloc: Global,
        hand: &mut SnapWriter,
        call: &Update<Key>,
    ) -> Result<Reply, AllocError> {
        match *call {
            Update::Set(key, value) => self.set(rt, hand, key, value),
            Update::Put(key, value) => self.put(rt, hand, key, value),
            Update::Del(key) => self.remove(rt, hand, key),
            Update::Tidy => self.tidy(rt, hand),
        }
    }

    #[tactic(auto, using(crate::proofs::Snapping::was_found, crate::proofs::Snapping::was_absent))]
    fn query<R: Wait>(
        &self,
        rt: &R,
        _alloc: Global,
        eye: &mut SnapPass,
        ask: &Key,
    ) -> Result<Option<u64>, AllocError> {
        match self.look(rt, eye, *ask) {
            Look::Found(value) => Ok(Some(value)),
            Look::Absent => Ok(None),
            Look::Again { .. } => unreachable!(),
        }
    }

    fn reached<R: Wait>(&self, rt: &R, eye: &mut SnapPass, n: u64) -> Result<(), u64> {
        Snap::reached(self, rt, eye, n)
    }

    fn answered(&self, hand: &mut SnapWriter, reader: u64) -> u64 {
        Snap::answered(self, hand, reader)
    }
}
