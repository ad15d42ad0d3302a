//! How cells and column groups widen the columns that they span (CSS 2.2, 17.5.2.2).

ghost use Rattle.std.specs.Prelude.{◌≡◌, ◌≢◌, ℕ, ◌+◌, ◌^◌, ◌<◌, ◌≤◌, pos};
ghost use Rattle.std.specs.Prelude.{◌≤ℤ◌, ◌<ℤ◌, ◌+ℤ◌, ◌*ℤ◌, length, All};
ghost use Rattle.lay_units.specs.Units.{IsSize};
ghost use Rattle.lay_grid.specs.Shares.{width_at};
ghost use Rattle.lay_grid.specs.Automatic.Sizes.{AreSizes};
ghost use Rattle.lay_grid.specs.Automatic.Spread.{AreWidened, IsWidened, lacking, sum_over};
ghost use Rattle.lay_grid.specs.Automatic.Fit.{SpanFits};

use crate::automatic::bounds::GroupSpan;
use crate::automatic::shares::part;
use lay_units::Unit;

/// Widens columns by each of these, one after another.
pub fn widen_all(widths: &mut Vec<Unit>, cells: &[GroupSpan], spacing: Unit)
    requires few { length widths.old.items < 2 ^ 32 }
    requires cells { All (SpanFits (length widths.old.items)) cells.now }
    requires spacing { IsSize spacing.0 }
    requires sizes { AreSizes widths.old.items }
    ensures widened { AreWidened spacing.0 cells.now widths.old.items widths.new.items }
    ensures as_many { length widths.new.items ≡ length widths.old.items }
    ensures sizes { AreSizes widths.new.items }
{
    for cell in cells {
        widen(widths, *cell, spacing);
    }
}

/// Widens the columns that a cell spans by what it lacks.
fn widen(widths: &mut Vec<Unit>, cell: GroupSpan, spacing: Unit)
    requires few { length widths.old.items < 2 ^ 32 }
    requires cell { SpanFits (length widths.old.items) cell }
    requires spacing { IsSize spacing.0 }
    requires sizes { AreSizes widths.old.items }
    ensures widened { IsWidened spacing.0 cell widths.old.items widths.new.items }
    ensures sizes { AreSizes widths.new.items }
{
    let lack = lack_of(widths.as_slice(), cell, spacing);
    let each = lack / u64::from(cell.span);
    let greater = lack % u64::from(cell.span);
    for k in 0..cell.span as usize {
        add(widths, cell.column as usize + k, part(each, greater, k));
    }
}

fn add(widths: &mut Vec<Unit>, column: usize, more: u64)
    requires column { column < length widths.old.items }
    requires fits { (width_at widths.old.items column +ℤ pos more) <ℤ pos (2 ^ 62) }
    requires sizes { AreSizes widths.old.items }
    ensures here { width_at widths.new.items column ≡ (width_at widths.old.items column +ℤ pos more) }
    ensures others { (k : ℕ) → k ≢ column → width_at widths.new.items k ≡ width_at widths.old.items k }
    ensures as_many { length widths.new.items ≡ length widths.old.items }
    ensures sizes { AreSizes widths.new.items }
{
    widths[column] = Unit(widths[column].0 + more as i64);
}

/// What a cell lacks in the columns that it spans.
fn lack_of(widths: &[Unit], cell: GroupSpan, spacing: Unit) -> u64
    requires few { length widths.now < 2 ^ 32 }
    requires cell { SpanFits (length widths.now) cell }
    requires spacing { IsSize spacing.0 }
    requires sizes { AreSizes widths.now }
    ensures value { result ≡ lacking spacing.0 cell widths.now }
    ensures below { result < 2 ^ 62 }
{
    let between = spacings(spacing, cell.span as usize - 1);
    let found = sum_over(widths, cell.column as usize, cell.span as usize) + between;
    (i128::from(cell.width.0) - found).max(0) as u64
}

/// So many spacings together.
fn spacings(spacing: Unit, count: usize) -> i128
    requires spacing { IsSize spacing.0 }
    requires count { count ≤ 2 ^ 32 }
    ensures value { result ≡ spacing.0 *ℤ pos count }
    ensures least { pos 0 ≤ℤ result }
    ensures most { result ≤ℤ pos (2 ^ 94) }
{
    i128::from(spacing.0) * count as i128
}

/// How wide so many columns are together, from this one on.
fn sum_over(widths: &[Unit], column: usize, count: usize) -> i128
    requires few { length widths.now < 2 ^ 32 }
    requires inside { column + count ≤ length widths.now }
    requires sizes { AreSizes widths.now }
    ensures value { result ≡ sum_over widths.now column count }
    ensures least { pos 0 ≤ℤ result }
    ensures most { result ≤ℤ pos (2 ^ 94) }
{
    let mut sum = 0;
    for k in 0..count {
        sum = sum + i128::from(widths[column + k].0);
    }
    sum
}
