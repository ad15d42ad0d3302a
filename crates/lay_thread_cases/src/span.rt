//! How long a layout takes.

use lay_outside::{Gate, Point};
use std::sync::atomic::{AtomicU64, Ordering};
use std::time::Clock;

/// Notes when the first claim is begun, and when the last one is done so far.
#[derive(Drop)]
pub(crate) struct Span<'r, R> {
    rt: &'r R,
    first: AtomicU64,
    last: AtomicU64,
}

impl<'r, R: Clock> Span<'r, R> {
    pub(crate) fn new(rt: &'r R) -> Span<'r, R> {
        Span {
            rt,
            first: AtomicU64::new(0),
            last: AtomicU64::new(0),
        }
    }

    /// The microseconds between the two.
    pub(crate) fn micros(&self) -> u64 {
        let first = self.first.load(Ordering::SeqCst);
        self.last.load(Ordering::SeqCst).saturating_sub(first)
    }

    /// The microseconds since some start, at least 1.
    fn now(&self) -> u64 {
        match self.rt.monotonic() {
            Ok(passed) => {
                let micros = passed.as_micros();
                if 0 < micros && micros <= 1_000_000_000_000_000_000 {
                    micros as u64
                } else {
                    1
                }
            }
            Err(_) => 1,
        }
    }
}

impl<'r, R: Clock> Gate for Span<'r, R> {
    fn at(&self, point: Point) {
        match point {
            Point::LayStart(_) => {
                if self.first.load(Ordering::SeqCst) == 0 {
                    let _found = self
                        .first
                        .compare_exchange(0, self.now(), Ordering::SeqCst, Ordering::SeqCst);
                }
            }
            Point::LayEnd(_) => self.last.store(self.now(), Ordering::SeqCst),
            _ => {}
        }
    }
}
