//! The minimum and the maximum of each column (CSS 2.2, 17.5.2.2).

ghost use Rattle.std.specs.Prelude.{◌≡◌, length, IfOk, All};
ghost use Rattle.lay_grid.specs.Automatic.Bounds.{ArePaired, AreWidths, AreBounds};
ghost use Rattle.lay_grid.specs.Automatic.Bounds.{maximum_spans, minimum_spans};
ghost use Rattle.lay_grid.specs.Automatic.Fit.{BoundsFit, SpanFits};

use crate::WidthOptions;
use crate::automatic::lists::{BoundList, GroupSpans, SpanCells};
use crate::automatic::own::own_widths;
use crate::automatic::spread::widen_all;
use lay_units::{NoMemory, Unit};
use std::alloc::Global;

/// How narrow and how wide a column is to be: its maximum is at least its minimum.
#[derive(Clone, Copy)]
pub struct Bound {
    pub min: Unit,
    pub max: Unit,
}

/// A cell: its first column and how many it spans, from 1, and how narrow and how wide its border
/// box is to be.
#[derive(Clone, Copy)]
pub struct SpanCell {
    pub column: u32,
    pub span: u32,
    pub min: Unit,
    pub max: Unit,
}

/// A column group with a width: its first column and how many it spans, from 1.
#[derive(Clone, Copy)]
pub struct GroupSpan {
    pub column: u32,
    pub span: u32,
    pub width: Unit,
}

/// What the bounds of columns depend on: for each column the width of its column element, the cells
/// row by row, the column groups that have a width, and the spacing between two columns.
#[derive(Drop)]
pub struct BoundsIn {
    pub given: WidthOptions,
    pub cells: SpanCells,
    pub groups: GroupSpans,
    pub spacing: Unit,
}

/// The bounds of the columns.
pub fn column_bounds(alloc: Global, i: &BoundsIn) -> Result<BoundList, NoMemory>
    requires { BoundsFit i.now }
    ensures { IfOk result (λ bounds. AreBounds i.now bounds) }
{
    let cells = minimums(alloc, i.cells.as_slice())?;
    let narrow = widths_of(alloc, i, cells.as_slice(), i.groups.as_slice())?;
    let cells = maximums(alloc, i.cells.as_slice())?;
    let wide = widths_of(alloc, i, cells.as_slice(), &[])?;
    paired(alloc, narrow.as_slice(), wide.as_slice())
}

/// Cells with their minimums.
fn minimums(alloc: Global, cells: &[SpanCell]) -> Result<Vec<GroupSpan>, NoMemory>
    ensures { IfOk result (λ spans. spans.items ≡ minimum_spans cells.now) }
{
    let mut spans = Vec::new(alloc);
    for cell in cells {
        spans.push(GroupSpan {
            column: cell.column,
            span: cell.span,
            width: cell.min,
        })?;
    }
    Ok(spans)
}

/// Cells with their maximums.
fn maximums(alloc: Global, cells: &[SpanCell]) -> Result<Vec<GroupSpan>, NoMemory>
    ensures { IfOk result (λ spans. spans.items ≡ maximum_spans cells.now) }
{
    let mut spans = Vec::new(alloc);
    for cell in cells {
        spans.push(GroupSpan {
            column: cell.column,
            span: cell.span,
            width: cell.max,
        })?;
    }
    Ok(spans)
}

/// The widths of the columns with these cells and groups.
fn widths_of(
    alloc: Global,
    i: &BoundsIn,
    cells: &[GroupSpan],
    groups: &[GroupSpan],
) -> Result<Vec<Unit>, NoMemory>
    requires i { BoundsFit i.now }
    requires cells { All (SpanFits (length i.now.given)) cells.now }
    requires groups { All (SpanFits (length i.now.given)) groups.now }
    ensures widths { IfOk result (λ widths.
        AreWidths i.now.given i.now.spacing.0 cells.now groups.now widths.items) }
    ensures as_many { IfOk result (λ widths. length widths.items ≡ length i.now.given) }
{
    let mut widths = own_widths(alloc, i.given.as_slice(), cells)?;
    widen_all(&mut widths, cells, i.spacing);
    widen_all(&mut widths, groups, i.spacing);
    Ok(widths)
}

/// Minimums and maximums as bounds, where a maximum below its minimum is raised to it.
fn paired(alloc: Global, minimums: &[Unit], maximums: &[Unit]) -> Result<BoundList, NoMemory>
    requires { length minimums.now ≡ length maximums.now }
    ensures { IfOk result (λ bounds. ArePaired minimums.now maximums.now bounds) }
{
    let mut bounds = Vec::new(alloc);
    for k in 0..minimums.len() {
        let min = minimums[k];
        let max = Unit(maximums[k].0.max(min.0));
        bounds.push(Bound { min, max })?;
    }
    Ok(BoundList::new(bounds))
}
