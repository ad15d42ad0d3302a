//! Spacings beside columns.

ghost use Rattle.std.specs.Prelude.{◌≡◌, ◌<◌, ◌^◌, ◌*ℤ◌, IfOk, pos};
ghost use Rattle.lay_table_sizes.specs.ColumnWidths.{with_spacings};

use lay_measure::sum;
use lay_table_grid::TableGrid;
use lay_units::{NoMemory, Unit};

/// How wide columns are that come to so much, with the spacings beside them. NoMemory is the answer where that isn't within 2^63
/// units, as it is in a document within its limits.
pub(crate) fn with_spacings(grid: &TableGrid, columns: Unit) -> Result<Unit, NoMemory>
    ensures { IfOk result (λ v. v ≡ record { 0 = with_spacings grid.now.spacing.across grid.now.columns columns.0 }) }
{
    let count = grid.columns();
    if count == 0 {
        return Ok(columns);
    }
    sum(
        columns,
        spacings(grid.spacing().across, count as usize + 1)?,
    )
}

/// So many spacings.
pub(crate) fn spacings(spacing: Unit, count: usize) -> Result<Unit, NoMemory>
    requires { count < 2 ^ 33 }
    ensures { IfOk result (λ v. v ≡ record { 0 = spacing.0 *ℤ pos count }) }
{
    match spacing.0.checked_mul(count as i64) {
        Some(together) => Ok(Unit(together)),
        None => Err(NoMemory),
    }
}
