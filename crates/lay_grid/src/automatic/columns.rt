//! The widths of columns in the automatic table layout (CSS 2.2, 17.5.2.2).

ghost use Rattle.std.specs.Prelude.{◌≡◌, ◌^◌, ◌<◌, pos, ◌≤ℤ◌, ◌-ℤ◌, length, IfOk, All};
ghost use Rattle.lay_grid.specs.Automatic.AutoColumns.{AreAutoColumns, AreBeyondMaximums};
ghost use Rattle.lay_grid.specs.Automatic.AutoColumns.{sum_max};
ghost use Rattle.lay_grid.specs.Automatic.Fit.{BoundFits, SpaceFits};

use crate::automatic::bounds::Bound;
use crate::automatic::lists::BoundList;
use crate::automatic::proportion::in_proportion;
use crate::automatic::shares::part;
use lay_units::{NoMemory, Unit, UnitList};
use std::alloc::Global;

/// The widths of the columns of a table with so much space for them.
pub fn columns_auto(alloc: Global, bounds: &BoundList, space: Unit) -> Result<UnitList, NoMemory>
    requires { SpaceFits bounds.now space.0 }
    ensures { IfOk result (λ widths. AreAutoColumns bounds.now space.0 widths) }
{
    let bounds = bounds.as_slice();
    let beyond = i128::from(space.0) - maximums(bounds);
    if beyond > 0 {
        return beyond_maximums(alloc, bounds, space, beyond as u64);
    }
    in_proportion(alloc, bounds, space)
}

/// The maximums together.
fn maximums(bounds: &[Bound]) -> i128
    requires few { length bounds.now < 2 ^ 32 }
    requires bounds { All BoundFits bounds.now }
    ensures value { result ≡ sum_max bounds.now }
    ensures least { pos 0 ≤ℤ result }
    ensures most { result ≤ℤ pos (2 ^ 94) }
{
    let mut sum = 0;
    for bound in bounds {
        sum = sum + i128::from(bound.max.0);
    }
    sum
}

/// The widths of columns that have this beyond their maximums.
fn beyond_maximums(
    alloc: Global,
    bounds: &[Bound],
    space: Unit,
    rest: u64,
) -> Result<UnitList, NoMemory>
    requires space { SpaceFits bounds.now space.0 }
    requires rest { pos rest ≡ (space.0 -ℤ sum_max bounds.now) }
    ensures { IfOk result (λ widths. AreBeyondMaximums bounds.now space.0 widths) }
{
    let mut widths = Vec::new(alloc);
    if bounds.is_empty() {
        return Ok(UnitList::new(widths));
    }
    let each = rest / bounds.len() as u64;
    let greater = rest % bounds.len() as u64;
    for k in 0..bounds.len() {
        widths.push(Unit(bounds[k].max.0 + part(each, greater, k) as i64))?;
    }
    Ok(UnitList::new(widths))
}
