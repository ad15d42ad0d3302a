//! How wide columns are for themselves: by their column elements and by the cells that they have
//! alone (CSS 2.2, 17.5.2.2).

ghost use Rattle.std.specs.Prelude.{◌≡◌, ◌≢◌, ℕ, ◌<◌, [], length, IfOk, All};
ghost use Rattle.std.specs.Int.{int_max};
ghost use Rattle.lay_units.specs.Units.{IsSize};
ghost use Rattle.lay_grid.specs.Shares.{own_width, width_at};
ghost use Rattle.lay_grid.specs.Automatic.Sizes.{AreSizes, MayBeSize};
ghost use Rattle.lay_grid.specs.Automatic.Own.{AreOwn};
ghost use Rattle.lay_grid.specs.Automatic.Fit.{SpanFits};
ghost use Rattle.lay_grid.specs.Automatic.Pass.Steps.{IsWidthRaised};

use crate::automatic::bounds::GroupSpan;
use lay_units::{NoMemory, Unit};
use std::alloc::Global;

/// The columns' own widths.
pub fn own_widths(
    alloc: Global,
    given: &[Option<Unit>],
    cells: &[GroupSpan],
) -> Result<Vec<Unit>, NoMemory>
    requires given { All MayBeSize given.now }
    requires cells { All (SpanFits (length given.now)) cells.now }
    ensures own { IfOk result (λ widths. AreOwn given.now cells.now widths.items) }
    ensures sizes { IfOk result (λ widths. AreSizes widths.items) }
{
    let mut widths = given_widths(alloc, given)?;
    for cell in cells {
        raise(&mut widths, *cell);
    }
    Ok(widths)
}

/// The widths of column elements, 0 where there is none.
fn given_widths(alloc: Global, given: &[Option<Unit>]) -> Result<Vec<Unit>, NoMemory>
    requires { All MayBeSize given.now }
    ensures own { IfOk result (λ widths. AreOwn given.now [] widths.items) }
    ensures sizes { IfOk result (λ widths. AreSizes widths.items) }
{
    let mut widths = Vec::new(alloc);
    for own in given {
        widths.push(width_of(*own))?;
    }
    Ok(widths)
}

fn width_of(own: Option<Unit>) -> Unit
    requires { MayBeSize own }
    ensures value { result.0 ≡ own_width own }
    ensures size { IsSize result.0 }
{
    match own {
        Some(width) => width,
        None => Unit(0),
    }
}

/// Makes a column as wide as a cell that it has alone.
fn raise(widths: &mut Vec<Unit>, cell: GroupSpan)
    requires cell { SpanFits (length widths.old.items) cell }
    requires sizes { AreSizes widths.old.items }
    ensures raised { IsWidthRaised cell widths.old.items widths.new.items }
    ensures sizes { AreSizes widths.new.items }
{
    if cell.span != 1 {
        return;
    }
    raise_column(widths, cell.column as usize, cell.width);
}

fn raise_column(widths: &mut Vec<Unit>, column: usize, width: Unit)
    requires column { column < length widths.old.items }
    requires width { IsSize width.0 }
    requires sizes { AreSizes widths.old.items }
    ensures here { width_at widths.new.items column ≡ int_max width.0 (width_at widths.old.items column) }
    ensures others { (k : ℕ) → k ≢ column → width_at widths.new.items k ≡ width_at widths.old.items k }
    ensures as_many { length widths.new.items ≡ length widths.old.items }
    ensures sizes { AreSizes widths.new.items }
{
    widths[column] = Unit(widths[column].0.max(width.0));
}
