//! How a thread comes to its turn of the lock.

use crate::engine::Engine;
use std::hint::spin_loop;
use std::sync::{MutexGuard, Wait};
use std::thread;

/// How often a thread looks whether it can have the lock before it sleeps. A turn is short, and who sleeps comes back later than the
/// turns of most others end.
const LOOKS: u32 = 64;

/// How many pauses of the processor it makes between two looks.
const PAUSES: u32 = 64;

impl Engine {
    /// Waits for the lock.
    pub(crate) fn enter<R: Wait>(&self, rt: &R) -> MutexGuard<'_, ()> {
        for _look in 0..LOOKS {
            if let Some(turn) = self.gate.try_lock() {
                return turn;
            }
            pause();
        }
        self.gate.lock(rt)
    }
}

/// Lets others run.
fn pause() {
    for _pause in 0..PAUSES {
        spin_loop();
    }
    thread::yield_now();
}
