//! Laws of the definition. The functions do nothing.

ghost use Rattle.lay_table_grid.specs.GridLaws.{GridsAreOfBoxes, OneTableGrid, SomeTableGrid};

/// A list of boxes has one structure as a table.
pub fn one_table_grid()
    ensures { OneTableGrid }
{}

/// And it has one.
pub fn some_table_grid()
    ensures { SomeTableGrid }
{}

/// The places in the structure of a table are places of its boxes.
pub fn grids_are_of_boxes()
    ensures { GridsAreOfBoxes }
{}
