//! Laws of the definition. The functions do nothing.

ghost use Rattle.lay_table.specs.RowLaws.{CellsAreSizedOnce, OneTableRows, SomeTableRows};

/// The rows of a table are the only ones.
pub fn one_table_rows()
    ensures { OneTableRows }
{}

/// A table has rows, whatever it is given.
pub fn some_table_rows()
    ensures { SomeTableRows }
{}

/// The used sizes with which the rows count a cell are those that it has in its own formatting context.
pub fn cells_are_sized_once()
    ensures { CellsAreSizedOnce }
{}
