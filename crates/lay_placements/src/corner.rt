//! Corners of boxes.

ghost use Rattle.std.specs.Prelude.{◌≡◌, ◌+ℤ◌, IfErr, IfOk};
ghost use Rattle.lay_units.specs.Units.{IsNear};
ghost use Rattle.lay_placements.specs.Corners.{IsCornerNear};

use lay_units::{NoMemory, Unit};

/// The greatest distance of an edge from the origin.
const FAR: i64 = 1152921504606846976;

/// The top left corner of a border box, in 1/64 px.
#[derive(Clone, Copy, PartialEq, Eq)]
pub struct Corner {
    pub x: Unit,
    pub y: Unit,
}

/// A corner. NoMemory is the answer where it is more than 2^60 units away, and nowhere else.
pub fn near_corner(x: Unit, y: Unit) -> Result<Corner, NoMemory>
    ensures corner { IfOk result (λ c. c ≡ record { x = x; y = y }) }
    ensures near { IfOk result IsCornerNear }
    ensures far { IfErr result (λ e. IsCornerNear (record { x = x; y = y }) → ⊥) }
{
    let x = near_position(x)?;
    let y = near_position(y)?;
    Ok(Corner { x, y })
}

/// A position. NoMemory is the answer where it is more than 2^60 units from 0, and nowhere else.
pub fn near_position(v: Unit) -> Result<Unit, NoMemory>
    ensures value { IfOk result (λ u. u ≡ v) }
    ensures near { IfOk result (λ u. IsNear u.0) }
    ensures far { IfErr result (λ e. IsNear v.0 → ⊥) }
{
    if v.0 < -FAR || v.0 > FAR {
        return Err(NoMemory);
    }
    Ok(v)
}

/// The sum of two lengths, in 1/64 px. NoMemory is the answer where it is more than 2^60 units from 0.
pub fn near_sum(a: Unit, b: Unit) -> Result<Unit, NoMemory>
    ensures value { IfOk result (λ u. u ≡ record { 0 = a.0 +ℤ b.0 }) }
    ensures near { IfOk result (λ u. IsNear u.0) }
{
    match a.0.checked_add(b.0) {
        Some(sum) => near_position(Unit(sum)),
        None => Err(NoMemory),
    }
}
