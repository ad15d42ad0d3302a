//! The columns' own widths (CSS 2.2, 17.5.2.1): those of column elements and of the first row's
//! cells.

ghost use Rattle.std.specs.Prelude.{◌≡◌, ℕ, ◌-◌, ◌*◌, ◌^◌, ◌<◌, ◌≤◌, ◌≢◌, pos};
ghost use Rattle.std.specs.Prelude.{length, Some, IfOk, All};
ghost use Rattle.lay_units.specs.Units.{IsPosition};
ghost use Rattle.lay_grid.specs.Lengths.{MayBePosition};
ghost use Rattle.lay_grid.specs.Shares.{own_at};
ghost use Rattle.lay_grid.specs.Columns.{AreOwn, divided, or_else, part_of};
ghost use Rattle.lay_grid.specs.ColumnsFit.{CellFits, ColumnsFit};
ghost use Rattle.lay_grid.specs.Pass.Sharing.{Gives};

use crate::columns::{ColumnsIn, FirstCell};
use crate::spacing::spacings;
use lay_units::{NoMemory, Unit};
use std::alloc::Global;

/// The columns' own widths, None where a column has none.
pub fn own_widths(alloc: Global, c: &ColumnsIn) -> Result<Vec<Option<Unit>>, NoMemory>
    requires { ColumnsFit c.now }
    ensures own { IfOk result (λ owns. AreOwn c.now owns.items) }
    ensures fits { IfOk result (λ owns. All MayBePosition owns.items) }
{
    let mut owns = Vec::from_slice(alloc, c.given.as_slice())?;
    for cell in c.first.as_slice() {
        give(&mut owns, *cell, c.spacing);
    }
    Ok(owns)
}

/// Gives a cell's width to its columns that have none.
fn give(owns: &mut Vec<Option<Unit>>, cell: FirstCell, spacing: Unit)
    requires cell { CellFits (length owns.old.items) cell }
    requires spacing { IsPosition spacing.0 }
    requires owns { All MayBePosition owns.old.items }
    ensures gives { Gives spacing.0 cell owns.old.items owns.new.items }
    ensures fits { All MayBePosition owns.new.items }
{
    let Some(width) = cell.width else {
        return;
    };
    let width = divided_width(width, cell.span, spacing);
    for k in 0..cell.span as usize {
        give_column(owns, cell.column as usize + k, part(width, cell.span, k));
    }
}

/// What a cell divides over its columns.
fn divided_width(width: Unit, span: u32, spacing: Unit) -> u128
    requires width { IsPosition width.0 }
    requires span { 1 ≤ span }
    requires spacing { IsPosition spacing.0 }
    ensures value { result ≡ divided spacing.0 width.0 span }
    ensures below { result ≤ (2 ^ 62 - 1) * span }
{
    let width = i128::from(width.0) - spacings(spacing, span as usize - 1);
    width.max(0) as u128
}

/// The part of the k-th of so many columns.
fn part(width: u128, span: u32, k: usize) -> Unit
    requires width { width ≤ (2 ^ 62 - 1) * span }
    requires span { 1 ≤ span }
    ensures value { result.0 ≡ pos (part_of width span k) }
    ensures fits { IsPosition result.0 }
{
    let each = width / span as u128;
    if (k as u128) < width % span as u128 {
        return Unit((each + 1) as i64);
    }
    Unit(each as i64)
}

fn give_column(owns: &mut Vec<Option<Unit>>, i: usize, width: Unit)
    requires place { i < length owns.old.items }
    requires width { IsPosition width.0 }
    requires owns { All MayBePosition owns.old.items }
    ensures here { own_at owns.new.items i ≡ or_else (own_at owns.old.items i) (Some width) }
    ensures others { (k : ℕ) → k ≢ i → own_at owns.new.items k ≡ own_at owns.old.items k }
    ensures as_many { length owns.new.items ≡ length owns.old.items }
    ensures fits { All MayBePosition owns.new.items }
{
    if owns[i].is_none() {
        owns[i] = Some(width);
    }
}
