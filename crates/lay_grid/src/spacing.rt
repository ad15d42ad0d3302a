//! Spacings between columns and between rows (CSS 2.2, 17.6.1).

ghost use Rattle.std.specs.Prelude.{◌≡◌, ◌^◌, ◌≤◌, pos, ◌*ℤ◌};
ghost use Rattle.lay_units.specs.Units.{IsPosition, IsWithinPower};

use lay_units::Unit;

/// So many spacings together.
pub fn spacings(spacing: Unit, count: usize) -> i128
    requires spacing { IsPosition spacing.0 }
    requires count { count ≤ 2 ^ 33 }
    ensures value { result ≡ spacing.0 *ℤ pos count }
    ensures within { IsWithinPower 95 result }
{
    product(spacing, count)
}

fn product(spacing: Unit, count: usize) -> i128
    ensures { result ≡ spacing.0 *ℤ pos count }
{
    spacing.0 as i128 * count as i128
}
