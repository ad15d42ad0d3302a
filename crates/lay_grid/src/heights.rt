//! The heights of the rows of a table (CSS 2.2, 17.5.3).

ghost use Rattle.std.specs.Prelude.{◌≡◌, [], ◌+◌, ◌-◌, ◌^◌, ◌<◌, ◌≤◌};
ghost use Rattle.std.specs.Prelude.{length, drop, IfOk};
ghost use Rattle.lay_units.specs.Units.{IsPosition, IsWithinPower};
ghost use Rattle.lay_grid.specs.Shares.{sum_of};
ghost use Rattle.lay_grid.specs.Heights.{AreHeights, AreLowest, IsLowest, room_above};
ghost use Rattle.lay_grid.specs.Lengths.{ArePositions};
ghost use Rattle.lay_grid.specs.RowsFit.{RowsFit};
ghost use Rattle.lay_grid.specs.Pass.Needs.{NeedsTo};
ghost use Rattle.lay_grid.specs.Pass.Totals.{Totals};

use crate::lists::RowCells;
use crate::needs::{Need, needs_by_last_row};
use crate::spacing::spacings;
use lay_units::{NoMemory, Unit, UnitList};
use std::alloc::Global;

/// A cell, by its first row and how many it spans, from 1: the height that it needs, and its
/// baseline where it is on the baseline of its first row.
#[derive(Clone, Copy)]
pub struct RowCell {
    pub row: u32,
    pub span: u32,
    pub height: Unit,
    pub baseline: Option<Unit>,
}

/// What the heights of rows depend on: the rows' own heights, the cells, the spacing between two
/// rows, and the least sum of the heights.
#[derive(Drop)]
pub struct RowsIn {
    pub own: UnitList,
    pub cells: RowCells,
    pub spacing: Unit,
    pub total: Unit,
}

/// The heights of the rows.
pub fn rows(alloc: Global, r: &RowsIn) -> Result<UnitList, NoMemory>
    requires { RowsFit r.now }
    ensures { IfOk result (λ heights. AreHeights r.now heights) }
{
    let count = r.own.as_slice().len();
    let needs = needs_by_last_row(alloc, r.cells.as_slice(), count)?;
    let mut heights = Vec::new(alloc);
    for row in 0..count {
        let height = row_height(r, heights.as_slice(), needs[row].as_slice());
        heights.push(height)?;
    }
    Ok(UnitList::new(heights))
}

/// The height of the row below these, in which cells with these needs end.
fn row_height(r: &RowsIn, above: &[Unit], needs: &[Need]) -> Unit
    requires r { RowsFit r.now }
    requires above { AreLowest r.now [] above.now }
    requires fits { ArePositions above.now }
    requires row { length above.now < length r.now.own }
    requires needs { NeedsTo r.now.cells (length r.now.cells) (length above.now) needs.now }
    ensures lowest { IsLowest r.now above.now result.0 }
    ensures fits { IsPosition result.0 }
{
    let mut height = i128::from(r.own.as_slice()[above.len()].0);
    for need in needs {
        height = height.max(need.room - room_from_above(r, above, need));
    }
    Unit(with_total(r, above, height) as i64)
}

/// What a cell has from the rows above its last one and from the spacings.
fn room_from_above(r: &RowsIn, above: &[Unit], need: &Need) -> i128
    requires spacing { IsPosition r.now.spacing.0 }
    requires fits { ArePositions above.now }
    requires few { length above.now < 2 ^ 32 }
    requires some { 1 ≤ need.now.span }
    ensures value { result ≡ room_above r.now above.now need.now.row need.now.span }
    ensures within { IsWithinPower 102 result }
{
    sum_from(above, need.row as usize) + spacings(r.spacing, need.span as usize - 1)
}

/// A height of the last row with which the sum of all is the table's at least; that of another
/// stays.
fn with_total(r: &RowsIn, above: &[Unit], height: i128) -> i128
    requires total { IsPosition r.now.total.0 }
    requires fits { ArePositions above.now }
    requires few { length above.now < 2 ^ 32 }
    requires height { IsWithinPower 104 height }
    ensures { Totals r.now above.now height result }
{
    if above.len() + 1 != r.own.as_slice().len() {
        return height;
    }
    height.max(i128::from(r.total.0) - sum_from(above, 0))
}

/// The sum of the heights from a row on.
fn sum_from(above: &[Unit], row: usize) -> i128
    requires fits { ArePositions above.now }
    requires few { length above.now < 2 ^ 32 }
    ensures value { result ≡ sum_of (drop row above.now) }
    ensures within { IsWithinPower 96 result }
{
    let mut sum = 0;
    for k in row..above.len() {
        sum = sum + i128::from(above[k].0);
    }
    sum
}
