//! Laws of the definitions. The functions do nothing.

ghost use Rattle.lay_grid.specs.Laws.{ColumnsHaveWidths, OneColumns, OneGrid, OneHeights};
ghost use Rattle.lay_grid.specs.Laws.{OneListOfCells, OneListOfOwnWidths, OneRowBaselines};
ghost use Rattle.lay_grid.specs.Laws.{OneSharing, RowsHaveAGrid, RowsHaveHeights};
ghost use Rattle.lay_grid.specs.Within.{ColumnsAreWithin, HeightsAreWithin, WidthsAreWithin};

/// The cells of rows stand in one way.
pub fn one_list_of_cells()
    ensures { OneListOfCells }
{}

/// Rows have one grid.
pub fn one_grid()
    ensures { OneGrid }
{}

/// Columns have one list of widths of their own.
pub fn one_list_of_own_widths()
    ensures { OneListOfOwnWidths }
{}

/// Columns share a width in one way.
pub fn one_sharing()
    ensures { OneSharing }
{}

/// Columns have one list of widths.
pub fn one_columns()
    ensures { OneColumns }
{}

/// Rows have one list of heights.
pub fn one_heights()
    ensures { OneHeights }
{}

/// Rows have one list of baselines.
pub fn one_row_baselines()
    ensures { OneRowBaselines }
{}

/// Rows have a grid, whatever cells they have.
pub fn rows_have_a_grid()
    ensures { RowsHaveAGrid }
{}

/// Columns have widths, whatever is asked of them.
pub fn columns_have_widths()
    ensures { ColumnsHaveWidths }
{}

/// Rows have heights, whatever is asked of them.
pub fn rows_have_heights()
    ensures { RowsHaveHeights }
{}

/// A grid has no more columns than its cells span together.
pub fn columns_are_within()
    ensures { ColumnsAreWithin }
{}

/// Rows that need no more than so much are no higher.
pub fn heights_are_within()
    ensures { HeightsAreWithin }
{}

/// Columns that are no wider than so much get no more than that for each, and once more.
pub fn widths_are_within()
    ensures { WidthsAreWithin }
{}
