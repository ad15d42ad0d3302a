//! Where bytes come from.

ghost use Rattle.std.specs.Prelude.{◌≡◌, ℕ, ◌<◌, ◌≤◌, List, [], Option, Some, length, IfSome, IfOk, OnErr};
ghost use Rattle.lay_outside.specs.Outside.{Rose, GivesNext};

/// A read or a write failed. The count of faults of its object has risen.
#[derive(Clone, Copy, Debug, PartialEq, Eq)]
pub struct Failed;

/// Gives bytes, once each and in order.
pub trait Source {
    // the bytes that are left, where they are told
    ghost left: { Self → Option (List ℕ) };

    // how many reads failed, up to 2^64 - 1
    ghost faults: { Self → ℕ };

    /// Writes the next bytes to the front of `buf` and answers how many they are. 0 for a buffer
    /// that isn't empty is the end of input. `Failed` gives no byte, and loses none.
    fn read(&mut self, buf: &mut [u8]) -> Result<usize, Failed>
        ensures count { IfOk result (λ n. n ≤ length buf.old) }
        ensures gives { IfOk result (λ n. GivesNext (left self.old) (left self.new) buf.new n) }
        ensures end { IfOk result (λ n. n ≡ 0 → 0 < length buf.old → IfSome (left self.old) (λ bytes. bytes ≡ [])) }
        ensures gives_none { OnErr result (IfSome (left self.old) (λ bytes. left self.new ≡ Some bytes)) }

        ensures failed { OnErr result (Rose (faults self.old) (faults self.new)) }
        ensures never_falls { faults self.old ≤ faults self.new };
}
