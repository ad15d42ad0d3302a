//! Rectangles that are counted from one corner or another.

ghost use Rattle.std.specs.Prelude.{◌≡◌, ◌-ℤ◌, IfErr, IfOk};
ghost use Rattle.lay_units.specs.Units.{IsPosition, IsNear};
ghost use Rattle.lay_placements.specs.Corners.{IsCornerNear};
ghost use Rattle.lay_placements.specs.NearPieces.{IsRectNear};
ghost use Rattle.lay_positioned.specs.ContainingRects.{seen_from};

use lay_placements::{Corner, near_position};
use lay_units::{NoMemory, Rect, Unit};

/// A rectangle. NoMemory is the answer where one of its numbers is more than 2^60 units from 0, and nowhere else.
pub(crate) fn near_rect(r: Rect) -> Result<Rect, NoMemory>
    ensures rect { IfOk result (λ n. n ≡ r) }
    ensures near { IfOk result IsRectNear }
    ensures far { IfErr result (λ e. IsRectNear r → ⊥) }
{
    let x = near_position(r.x)?;
    let y = near_position(r.y)?;
    let w = near_position(r.w)?;
    let h = near_position(r.h)?;
    Ok(Rect { x, y, w, h })
}

/// A rectangle, counted from a corner.
pub(crate) fn seen_from(corner: Corner, r: Rect) -> Result<Rect, NoMemory>
    requires corner { IsCornerNear corner }
    requires near { IsRectNear r }
    ensures rect { IfOk result (λ n. n ≡ seen_from corner r) }
    ensures near { IfOk result IsRectNear }
    ensures far { IfErr result (λ e. IsRectNear (seen_from corner r) → ⊥) }
{
    let rect = Rect {
        x: difference(r.x, corner.x),
        y: difference(r.y, corner.y),
        w: r.w,
        h: r.h,
    };
    near_rect(rect)
}

/// A position, counted from another one.
pub(crate) fn difference(position: Unit, from: Unit) -> Unit
    requires position { IsNear position.0 }
    requires from { IsNear from.0 }
    ensures value { result ≡ record { 0 = position.0 -ℤ from.0 } }
    ensures fits { IsPosition result.0 }
{
    Unit(position.0 - from.0)
}
