//! How a task waits for another.
use crossbeam_utils::Backoff;
use std::sync::Wait;
use std::thread::Parker;
use std::time::Duration;

/// So many turns of a wait spin or yield, which takes some hundred microseconds in all.
const AT_ONCE: u32 = 256;

/// How many microseconds each later turn sleeps.
const NAP: u64 = 50;

/// The turns of one wait. At first they are those of `Backoff`, so that what comes soon is seen soon. Later ones sleep, so that a long wait leaves
/// the processor to the others.
#[derive(Drop)]
pub struct Waiting {
    backoff: Backoff,
    turns: u32,
    // No other task knows it, so it only ever wakes by time.
    parker: Parker,
}

impl Waiting {
    /// A wait that begins.
    pub fn new() -> Waiting {
        Waiting {
            backoff: Backoff::new(),
            turns: 0,
            parker: Parker::new(),
        }
    }

    /// Lets some time go by before the next look.
    pub fn turn<R: Wait>(&mut self, rt: &R) {
        if self.turns < AT_ONCE {
            self.turns += 1;
            self.backoff.snooze();
        } else {
            self.parker.park_timeout(rt, Duration::from_micros(NAP));
        }
    }
}
