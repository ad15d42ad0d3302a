//! The grid of a table: the slots that its cells cover (CSS 2.2, 17.5), the widths of its columns
//! in the fixed table layout (17.5.2.1) and the heights of its rows (17.5.3).
//!
//! Contracts cite `IsGrid` of `specs/Slots.antt`, `AreColumns` of `specs/Columns.antt`, `AreHeights`
//! of `specs/Heights.antt` and `AreRowBaselines` of `specs/RowBaselines.antt`. They are relations,
//! and have one value each. Rows have a grid and heights, and columns have widths, whatever is
//! asked of them (`specs/Laws.antt`).
//!
//! - `automatic`: the widths of columns in the automatic table layout (17.5.2.2).
#![tactic(auto)]

pub mod automatic;
mod baselines;
mod cells;
mod columns;
mod given_widths;
mod grid;
mod heights;
mod laws;
mod lists;
mod needs;
mod placing;
mod scan;
mod shares;
mod spacing;

pub use baselines::row_baselines;
pub use cells::{Area, Cell, Grid, RowSpec, Slot, Span};
pub use columns::{ColumnsIn, FirstCell, columns_fixed};
pub use given_widths::own_widths;
pub use grid::slots;
pub use heights::{RowCell, RowsIn, rows};
pub use laws::{
    columns_are_within, columns_have_widths, heights_are_within, one_columns, one_grid,
    one_heights, one_list_of_cells, one_list_of_own_widths, one_row_baselines, one_sharing,
    rows_have_a_grid, rows_have_heights, widths_are_within,
};
pub use lists::{FirstCells, RowCells, SlotList, SpanList, WidthOptions};
pub use placing::standing_cells;
