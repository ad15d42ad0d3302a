//! Sums of lengths.

ghost use Rattle.std.specs.Prelude.{◌≡◌, ◌-ℤ◌, ◌*ℤ◌, pos, IfOk};
ghost use Rattle.lay_units.specs.Units.{IsNear};

use lay_placements::near_position;
use lay_units::{NoMemory, Unit};

/// The same for a difference.
pub(crate) fn near_difference(a: Unit, b: Unit) -> Result<Unit, NoMemory>
    ensures value { IfOk result (λ u. u ≡ record { 0 = a.0 -ℤ b.0 }) }
    ensures near { IfOk result (λ u. IsNear u.0) }
{
    match a.0.checked_sub(b.0) {
        Some(difference) => near_position(Unit(difference)),
        None => Err(NoMemory),
    }
}

/// The same for so many of a length.
pub(crate) fn near_product(a: Unit, count: usize) -> Result<Unit, NoMemory>
    ensures value { IfOk result (λ u. u ≡ record { 0 = a.0 *ℤ pos count }) }
    ensures near { IfOk result (λ u. IsNear u.0) }
{
    let Ok(count) = i64::try_from(count) else {
        return Err(NoMemory);
    };
    match a.0.checked_mul(count) {
        Some(product) => near_position(Unit(product)),
        None => Err(NoMemory),
    }
}
