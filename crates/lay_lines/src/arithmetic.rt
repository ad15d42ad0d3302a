//! Sums and comparisons of positions.

ghost use Rattle.std.specs.Prelude.{◌≡◌, ◌↔◌, ◌+ℤ◌, ◌≤ℤ◌, IsTrue};
ghost use Rattle.lay_units.specs.Units.{IsPosition};

use lay_units::Unit;

/// A sum of two positions, which may be none itself.
pub fn wide_plus(a: Unit, b: Unit) -> Unit
    requires a { IsPosition a.0 }
    requires b { IsPosition b.0 }
    ensures { result.0 ≡ a.0 +ℤ b.0 }
{
    Unit(a.0 + b.0)
}

pub fn is_at_most(a: Unit, b: Unit) -> bool
    ensures { IsTrue result ↔ a.0 ≤ℤ b.0 }
{
    a.0 <= b.0
}

pub fn are_same(a: Unit, b: Unit) -> bool
    ensures { IsTrue result ↔ a.0 ≡ b.0 }
{
    a.0 == b.0
}
