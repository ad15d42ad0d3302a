//! Sums of lengths, which may not fit a length.

ghost use Rattle.std.specs.Prelude.{◌≡◌, ◌+ℤ◌, ◌-ℤ◌};
ghost use Rattle.lay_units.specs.Units.{IsPosition, IsWithinPower};

use lay_units::Unit;

pub fn sum(a: i128, b: i128) -> i128
    requires a { IsWithinPower 67 a }
    requires b { IsWithinPower 67 b }
    ensures { result ≡ a +ℤ b }
{
    a + b
}

pub fn difference(a: i128, b: i128) -> i128
    requires a { IsWithinPower 67 a }
    requires b { IsWithinPower 67 b }
    ensures { result ≡ a -ℤ b }
{
    a - b
}

pub fn narrow(v: i128) -> Unit
    requires { IsPosition v }
    ensures { result.0 ≡ v }
{
    Unit(v as i64)
}
