//! Laws of the definitions. The functions do nothing.

ghost use Rattle.lay_grid.specs.Automatic.Laws.{BoundsAreSizes, BoundsAreWithin, BoundsHaveRoom, CellsWidenByNeed};
ghost use Rattle.lay_grid.specs.Automatic.Laws.{ColumnsAreWithin, ColumnsFillTheSpace, ColumnsHaveBounds};
ghost use Rattle.lay_grid.specs.Automatic.Laws.{ColumnsHaveWidths, OneListOfBounds};
ghost use Rattle.lay_grid.specs.Automatic.Laws.{OneListOfColumns};

/// Columns have one list of bounds.
pub fn one_list_of_bounds()
    ensures { OneListOfBounds }
{}

/// Columns share a width in one way.
pub fn one_list_of_columns()
    ensures { OneListOfColumns }
{}

/// Columns have bounds, whatever is asked of them.
pub fn columns_have_bounds()
    ensures { ColumnsHaveBounds }
{}

/// Columns have widths in a space that is no less than their minimums together.
pub fn columns_have_widths()
    ensures { ColumnsHaveWidths }
{}

/// Each cell and each column group finds room in the columns that it spans.
pub fn bounds_have_room()
    ensures { BoundsHaveRoom }
{}

/// A cell widens the columns that it spans by what it lacks, in parts that are alike, and no other column.
pub fn cells_widen_by_need()
    ensures { CellsWidenByNeed }
{}

/// Columns of which nothing asks for more than so much have no greater bounds.
pub fn bounds_are_within()
    ensures { BoundsAreWithin }
{}

/// The bounds of columns are sizes.
pub fn bounds_are_sizes()
    ensures { BoundsAreSizes }
{}

/// Columns are together as wide as the space.
pub fn columns_fill_the_space()
    ensures { ColumnsFillTheSpace }
{}

/// A column is as wide as its minimum at least, and as its maximum at most, or at least in a wider
/// table.
pub fn columns_are_within()
    ensures { ColumnsAreWithin }
{}
