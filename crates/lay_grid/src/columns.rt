//! The widths of columns in the fixed table layout (CSS 2.2, 17.5.2.1).

ghost use Rattle.std.specs.Prelude.{◌≡◌, ◌+◌, ◌^◌, ◌<◌, pos, ◌-ℤ◌, ◌*ℤ◌, IfOk};
ghost use Rattle.std.specs.Int.{int_max};
ghost use Rattle.lay_units.specs.Units.{IsPosition, IsWithinPower};
ghost use Rattle.lay_grid.specs.Columns.{AreColumns};
ghost use Rattle.lay_grid.specs.ColumnsFit.{ColumnsFit};

use crate::given_widths::own_widths;
use crate::lists::{FirstCells, WidthOptions};
use crate::shares::share_out;
use crate::spacing::spacings;
use lay_units::{NoMemory, Unit, UnitList};
use std::alloc::Global;

/// A cell of the first row: its first column and how many it spans, from 1, and the width of its
/// border box, None where that is `auto`.
#[derive(Clone, Copy)]
pub struct FirstCell {
    pub column: u32,
    pub span: u32,
    pub width: Option<Unit>,
}

/// What the widths of columns depend on: for each column the width of its column element, the cells
/// of the first row, the width of the table between its inner padding edges, and the spacing beside
/// each column.
#[derive(Drop)]
pub struct ColumnsIn {
    pub given: WidthOptions,
    pub first: FirstCells,
    pub width: Unit,
    pub spacing: Unit,
}

/// The widths of the columns.
pub fn columns_fixed(alloc: Global, c: &ColumnsIn) -> Result<UnitList, NoMemory>
    requires { ColumnsFit c.now }
    ensures { IfOk result (λ widths. AreColumns c.now widths) }
{
    let owns = own_widths(alloc, c)?;
    let width = width_left(c.width, owns.len(), c.spacing);
    share_out(alloc, owns.as_slice(), width)
}

/// What the spacings beside so many columns leave of a width, if anything.
fn width_left(width: Unit, columns: usize, spacing: Unit) -> i128
    requires width { IsPosition width.0 }
    requires columns { columns < 2 ^ 32 }
    requires spacing { IsPosition spacing.0 }
    ensures value { result ≡ int_max (pos 0) (width.0 -ℤ (spacing.0 *ℤ pos (columns + 1))) }
    ensures within { IsWithinPower 96 result }
{
    (i128::from(width.0) - spacings(spacing, columns + 1)).max(0)
}
