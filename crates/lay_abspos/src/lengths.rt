//! Lengths and positions beside each other, in 1/64 px.

ghost use Rattle.std.specs.Prelude.{◌≡◌, ◌+ℤ◌, ◌-ℤ◌};
ghost use Rattle.lay_units.specs.Units.{IsPosition};
ghost use Rattle.lay_sizes.specs.SizeBounds.{IsInset};

use lay_units::Unit;

/// What is left of a length between two others.
pub fn inside(length: Unit, before: Unit, after: Unit) -> Unit
    requires length { IsPosition length.0 }
    requires before { IsInset before.0 }
    requires after { IsInset after.0 }
    ensures { result ≡ record { 0 = length.0 -ℤ before.0 -ℤ after.0 } }
{
    Unit(length.0 - before.0 - after.0)
}

/// A position so much further.
pub fn moved(position: Unit, by: Unit) -> Unit
    requires position { IsPosition position.0 }
    requires by { IsPosition by.0 }
    ensures { result ≡ record { 0 = position.0 +ℤ by.0 } }
{
    Unit(position.0 + by.0)
}
