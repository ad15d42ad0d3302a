//! Positions near the origin.

ghost use Rattle.std.specs.Prelude.{◌≡◌, ◌-ℤ◌};
ghost use Rattle.lay_units.specs.Units.{IsPosition, IsNear};

use lay_units::Unit;

/// A position at most 2^60 units from the origin.
#[derive(Clone, Copy)]
pub struct Near {
    pub unit: Unit,
    pub ghost near: { IsNear unit.0 },
}

impl Near {
    /// How far it lies below another one.
    pub fn below(self, top: Near) -> Unit
        ensures value { result ≡ record { 0 = self.unit.0 -ℤ top.unit.0 } }
        ensures position { IsPosition result.0 }
    {
        Unit(self.unit.0 - top.unit.0)
    }
}
