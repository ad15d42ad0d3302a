//! The widths of the columns of a table in the automatic table layout (CSS 2.2, 17.5.2.2): how
//! narrow and how wide the cells make each column, and how the columns share the width of the table.
//!
//! Contracts cite `AreBounds` of `specs/Automatic/Bounds.antt` and `AreAutoColumns` of
//! `specs/Automatic/AutoColumns.antt`. They are relations, and have one value each. The laws of
//! `specs/Automatic/Laws.antt` say what the columns come to together, what a cell finds in the columns that
//! it spans, and what each column gets at least and at most.

mod bounds;
mod columns;
mod laws;
mod lists;
mod own;
mod proportion;
mod shares;
mod spread;

pub use bounds::{Bound, BoundsIn, GroupSpan, SpanCell, column_bounds};
pub use columns::columns_auto;
pub use laws::{
    bounds_are_sizes, bounds_are_within, bounds_have_room, cells_widen_by_need, columns_are_within,
    columns_fill_the_space, columns_have_bounds, columns_have_widths, one_list_of_bounds,
    one_list_of_columns,
};
pub use lists::{BoundList, GroupSpans, SpanCells};
