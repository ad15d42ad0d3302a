//! Where bytes go to.

ghost use Rattle.std.specs.Prelude.{◌≡◌, ℕ, ◌<◌, ◌≤◌, List, Option, length, take, IfOk, OnErr};
ghost use Rattle.lay_outside.specs.Outside.{Rose, Took, TookFront};

use crate::Failed;

/// Takes bytes, in order.
pub trait Sink {
    // the bytes that were taken, where they are told
    ghost taken: { Self → Option (List ℕ) };

    // how many writes failed or stalled, up to 2^64 - 1
    ghost faults: { Self → ℕ };

    /// Takes a front of `piece` and answers how many bytes it took. 0 of a piece that isn't empty
    /// counts as a fault. `Failed` may take a front, too: a writer can fail after it took bytes.
    fn write(&mut self, piece: &[u8]) -> Result<usize, Failed>
        ensures count { IfOk result (λ n. n ≤ length piece.now) }
        ensures takes { IfOk result (λ n. Took (taken self.old) (taken self.new) (take n piece.now)) }
        ensures stalled { IfOk result (λ n. n ≡ 0 → 0 < length piece.now → Rose (faults self.old) (faults self.new)) }
        ensures takes_front { OnErr result (TookFront (taken self.old) (taken self.new) piece.now) }

        ensures failed { OnErr result (Rose (faults self.old) (faults self.new)) }
        ensures never_falls { faults self.old ≤ faults self.new };
}
