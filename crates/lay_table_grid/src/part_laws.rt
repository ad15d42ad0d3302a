//! Laws of the definitions. The functions do nothing.

ghost use Rattle.lay_table_grid.specs.PartLaws.{GridsAreOfPlacedCells, OneTableParts};

/// A list of boxes has one table, with one list of each of its parts.
pub fn one_table_parts()
    ensures { OneTableParts }
{}

/// The grid of a table's rows has the table's cells where they stand.
pub fn grids_are_of_placed_cells()
    ensures { GridsAreOfPlacedCells }
{}
