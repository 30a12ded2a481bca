//! A sink in memory, which fails where it is told to.
ghost use Rattle.std.specs.Prelude.{◌≡◌, ◌≤◌, ◌<◌, [], length, IfOk, IsErr, IsTrue, ◌↔◌};
ghost use Rattle.ck_io.specs.MemSink.{put_fails, taken_of, sink_after};

use crate::{Sink, SinkFailed};
use std::alloc::{AllocError, Global};
use std::marker::Model;

/// A sink that keeps what it takes, up to its room. Contracts see a `SinkState`.
#[derive(Drop)]
pub struct MemSink {
    bytes: Vec<u8>,
    room: u64,
    most: u64,
    fails: Vec<u64>,
    calls: u64,
    faults: u64,
}

impl Model for MemSink {
    ghost use Rattle.std.specs.Prelude.{◌≤◌, vec_capacity, vec_len};
    ghost use Rattle.ck_io.specs.MemSink.{SinkState};

    ghost Value = { SinkState };

    ghost view = { λ s. record {
      taken = s.bytes.items;
      room = s.room;
      most = s.most;
      fails = s.fails.items;
      calls = s.calls;
      faults = s.faults;
    } };

    ghost invariant = { λ s. record {
      takes : 1 ≤ s.most;
      within : vec_len s.bytes ≤ s.room;
      has_room : s.room ≤ vec_capacity s.bytes;
    } };
}

impl MemSink {
    /// A sink with room for `room` bytes, which it allocates now. A call takes at most `most` bytes, and the calls
    /// whose numbers, from 1, stand in `fails` fail. A call on a piece that isn't empty fails once the room is full.
    pub fn new(alloc: Global, room: u64, most: u64, fails: Vec<u64>) -> Result<MemSink, AllocError>
        requires { 1 ≤ most }
        ensures { IfOk result (λ sink. sink ≡ record {
          taken = [];
          room = room;
          most = most;
          fails = fails.items;
          calls = 0;
          faults = 0;
        }) }
    {
        let bytes = Vec::with_capacity(alloc, room as usize)?;
        Ok(MemSink {
            bytes,
            room,
            most,
            fails,
            calls: 0,
            faults: 0,
        })
    }

    /// The bytes taken so far.
    pub fn bytes(&self) -> &[u8]
        ensures { result.now ≡ self.now.taken }
    {
        &self.bytes
    }
}

impl Sink for MemSink {
    ghost use Rattle.std.specs.Prelude.{Some};

    ghost taken = { λ s. Some s.taken };

    ghost faults = { λ s. s.faults };

    fn put(&mut self, piece: &[u8]) -> Result<u64, SinkFailed>
        // Every answer, and the sink after it.
        ensures fails { IsErr result ↔ IsTrue (put_fails self.old piece.now) }
        ensures count { IfOk result (λ n. n ≡ taken_of self.old piece.now) }
        ensures after { self.new ≡ sink_after self.old piece.now }
        ensures some { IfOk result (λ n. 0 < length piece.now → 0 < n) }
        ensures lasting { self.old.faults ≤ self.new.faults }
    {
        self.calls = self.calls.saturating_add(1);
        let left = self.room - self.bytes.len() as u64;
        if self.fails.contains(&self.calls) || left == 0 && !piece.is_empty() {
            self.faults = self.faults.saturating_add(1);
            return Err(SinkFailed);
        }
        let count = (piece.len() as u64).min(self.most).min(left);
        self.bytes
            .extend_from_slice(&piece[..count as usize])
            .unwrap();
        Ok(count)
    }
}
