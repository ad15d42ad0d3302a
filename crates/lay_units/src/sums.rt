//! Sums and differences of positions.

ghost use Rattle.std.specs.Prelude.{◌≡◌, ◌+ℤ◌, ◌-ℤ◌};
ghost use Rattle.lay_units.specs.Units.{IsPosition};

use crate::length::Unit;

/// The sum of two positions, each less than 2^62 units from 0.
pub fn sum_of(a: Unit, b: Unit) -> Unit
    requires a { IsPosition a.0 }
    requires b { IsPosition b.0 }
    ensures { result ≡ record { 0 = a.0 +ℤ b.0 } }
{
    Unit(a.0 + b.0)
}

/// The sum of two lengths, where it is a position.
pub fn plus(a: Unit, b: Unit) -> Unit
    requires { IsPosition (a.0 +ℤ b.0) }
    ensures { result.0 ≡ a.0 +ℤ b.0 }
{
    Unit(a.0 + b.0)
}

/// A difference of two positions, which may be none itself.
pub fn wide_minus(a: Unit, b: Unit) -> Unit
    requires a { IsPosition a.0 }
    requires b { IsPosition b.0 }
    ensures { result.0 ≡ a.0 -ℤ b.0 }
{
    Unit(a.0 - b.0)
}
