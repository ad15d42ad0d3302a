//! The columns of a table together, with the spacings beside them.

ghost use Rattle.std.specs.Prelude.{◌≡◌, ◌≤ℤ◌, pos, IfOk};
ghost use Rattle.lay_grid.specs.Automatic.AutoColumns.{sum_max, sum_min};
ghost use Rattle.lay_table_sizes.specs.ColumnBounds.{greatest_content, least_content, spaces};

use lay_grid::automatic::Bound;
use lay_measure::sum;
use lay_table_grid::TableGrid;
use lay_units::{NoMemory, Unit};

/// How wide columns with these bounds are together at their minimums, with the spacings beside them, in 1/64 px. NoMemory is the answer
/// where that isn't within 2^63 units, as it is in a document within its limits.
pub fn least_content(grid: &TableGrid, bounds: &[Bound]) -> Result<Unit, NoMemory>
    ensures { IfOk result (λ v. v.0 ≡ least_content grid.now bounds.now) }
{
    sum(minimums(bounds)?, spaces(grid)?)
}

/// How wide columns with these bounds are together at their maximums, with the spacings beside them, in 1/64 px. NoMemory is the answer
/// where that isn't within 2^63 units, as it is in a document within its limits.
pub fn greatest_content(grid: &TableGrid, bounds: &[Bound]) -> Result<Unit, NoMemory>
    ensures { IfOk result (λ v. v.0 ≡ greatest_content grid.now bounds.now) }
{
    sum(maximums(bounds)?, spaces(grid)?)
}

/// The spacings beside the columns of a table.
pub fn spaces(grid: &TableGrid) -> Result<Unit, NoMemory>
    ensures value { IfOk result (λ v. v.0 ≡ spaces grid.now) }
    ensures least { IfOk result (λ v. pos 0 ≤ℤ v.0) }
{
    let count = grid.columns();
    if count == 0 {
        return Ok(Unit(0));
    }
    match grid.spacing().across.0.checked_mul(i64::from(count) + 1) {
        Some(spaces) => Ok(Unit(spaces)),
        None => Err(NoMemory),
    }
}

fn minimums(bounds: &[Bound]) -> Result<Unit, NoMemory>
    ensures { IfOk result (λ v. v.0 ≡ sum_min bounds.now) }
{
    let mut total = Unit(0);
    for k in 0..bounds.len() {
        total = sum(total, bounds[k].min)?;
    }
    Ok(total)
}

fn maximums(bounds: &[Bound]) -> Result<Unit, NoMemory>
    ensures { IfOk result (λ v. v.0 ≡ sum_max bounds.now) }
{
    let mut total = Unit(0);
    for k in 0..bounds.len() {
        total = sum(total, bounds[k].max)?;
    }
    Ok(total)
}
