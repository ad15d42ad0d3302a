//! Equal parts of a width.

ghost use Rattle.std.specs.Prelude.{◌≡◌, ◌+◌, ◌^◌, ◌<◌, cond, nat_lt};

/// The k-th of equal parts, of which so many first ones are greater by a unit.
pub fn part(each: u64, greater: u64, k: usize) -> u64
    requires { each < 2 ^ 63 }
    ensures { result ≡ each + cond (nat_lt k greater) 1 0 }
{
    if (k as u64) < greater {
        return each + 1;
    }
    each
}
