//! Sums and differences.

ghost use Rattle.std.specs.Prelude.{◌≡◌, ◌+ℤ◌, ◌-ℤ◌};
ghost use Rattle.lay_units.specs.Units.{IsSum};

use lay_units::Unit;

pub fn plus(a: Unit, b: Unit) -> Unit
    requires { IsSum (a.0 +ℤ b.0) }
    ensures { result.0 ≡ a.0 +ℤ b.0 }
{
    Unit(a.0 + b.0)
}

pub fn minus(a: Unit, b: Unit) -> Unit
    requires { IsSum (a.0 -ℤ b.0) }
    ensures { result.0 ≡ a.0 -ℤ b.0 }
{
    Unit(a.0 - b.0)
}
