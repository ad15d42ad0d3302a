//! Laws of the definitions. The functions do nothing.

ghost use Rattle.lay_table_grid.specs.Laws.{OneCellBorders, OneTableBorders};

/// The slots that a cell covers give it one set of collapsed borders.
pub fn one_cell_borders()
    ensures { OneCellBorders }
{}

/// A table box has one set of collapsed borders.
pub fn one_table_borders()
    ensures { OneTableBorders }
{}
