//! A gate that lets threads meet.

ghost use Rattle.std.specs.Prelude.{◌≡◌, ◌<◌, ◌≤◌, length};

use crate::{Gate, Point};
use std::marker::Model;
use std::sync::atomic::{AtomicBool, AtomicU64, Ordering};
use std::thread;

/// After so many turns a thread that is held goes on.
const TURNS: u32 = 100_000_000;

/// Once in so many turns a thread that is held lets others run. On a busy machine that may take longer than all the turns between.
const TURNS_AT_ONCE: u32 = 131_072;

/// Holds whoever is at one point until some others were all reached, or until 100,000,000 turns have passed.
#[derive(Drop)]
pub struct MeetGate {
    hold: Point,
    until: Vec<Point>,
    // a bit for each of `until` that was not reached yet
    missing: AtomicU64,
    met: AtomicBool,
}

impl Model for MeetGate {
    ghost use Rattle.std.specs.Prelude.{◌≤◌, length};
    ghost use Rattle.lay_outside.specs.Meetings.{Meeting};

    ghost Value = { Meeting };

    ghost view = { λ g. record { hold = g.hold; until = g.until.items } };

    ghost invariant = { λ g. length g.until.items ≤ 64 };
}

impl MeetGate {
    /// One that holds this point until all of these were reached, which are at most 64.
    pub fn new(hold: Point, until: Vec<Point>) -> MeetGate
        requires { length until.items ≤ 64 }
        ensures { result ≡ record { hold = hold; until = until.items } }
    {
        let missing = u64::MAX.checked_shr(64 - until.len() as u32).unwrap_or(0);
        MeetGate {
            hold,
            until,
            missing: AtomicU64::new(missing),
            met: AtomicBool::new(false),
        }
    }

    /// Whether a thread that was held went on because all other points were reached, and not because its turns had passed.
    pub fn met(&self) -> bool {
        self.met.load(Ordering::SeqCst)
    }

    fn note(&self, point: Point) {
        for i in 0..self.until.len() {
            if self.until[i] == point {
                self.strike(1 << i);
            }
        }
    }

    /// Takes a bit from those that are missing. An exchange fails only where another thread has just taken one, which it does at most 64
    /// times in all.
    fn strike(&self, bit: u64) {
        for _try in 0..=64u32 {
            let missing = self.missing.load(Ordering::SeqCst);
            let rest = missing & !bit;
            let exchanged = self
                .missing
                .compare_exchange(missing, rest, Ordering::SeqCst, Ordering::SeqCst);
            if exchanged.is_ok() {
                return;
            }
        }
    }

    fn wait(&self) {
        for turn in 0..TURNS {
            if self.missing.load(Ordering::SeqCst) == 0 {
                self.met.store(true, Ordering::SeqCst);
                return;
            }
            if turn % TURNS_AT_ONCE == 0 {
                thread::yield_now();
            }
        }
    }
}

impl Gate for MeetGate {
    fn at(&self, point: Point) {
        self.note(point);
        if point == self.hold {
            self.wait();
        }
    }
}
