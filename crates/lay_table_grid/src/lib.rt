//! The structure of a table (CSS 2.2, 17.2 to 17.6), read off the boxes of its formatting context and their styles.
//!
//! `IsTableGrid` of `specs/TableGrid.antt` is the whole: the rows, cells and columns of the table's parts, the spacing between
//! them, and the used borders of the table and its cells. These are those of a box by its style alone, where borders are
//! separate (17.6.1), and where they collapse (17.6.2), those that come of the borders which meet at the edges of the grid:
//! `AreCellBorders` and `AreTableBorders` of `specs/TableBorders.antt`, over `specs/MeetingBorders.antt`; lay_borders says
//! which of them is drawn. All are relations, and have one value each (`specs/Laws.antt`, `specs/GridLaws.antt`).
//!
//! The parts of a table (17.2, 17.3 and 17.5) are its table box, its rows as they are drawn, its cells where they stand in the grid, and
//! its columns. `table_parts` cites `ArePartsOf` of `specs/TableParts.antt`, which stands on which box is what (`specs/TableBoxes.antt`)
//! and on where cells stand (`specs/PlacedCells.antt`). It is a relation, and has one value (`specs/PartLaws.antt`).
#![tactic(auto)]

mod assembly;
mod bordered;
mod cell_area;
mod cells;
mod collapsed;
mod columns;
mod edges;
mod elements;
mod grid;
mod grid_laws;
mod group_numbers;
mod groups;
mod kinds;
mod laws;
mod meeting;
mod part_laws;
mod parts;
mod placed;
mod places;
mod rows;
mod runs;
mod separate;
mod slots;
mod widest;

pub use assembly::table_grid;
pub use cell_area::CellArea;
pub use collapsed::{cell_borders, table_borders};
pub use edges::Edges;
pub use grid::{Spacing, TableCell, TableGrid};
pub use grid_laws::{grids_are_of_boxes, one_table_grid, some_table_grid};
pub use groups::around_column;
pub use kinds::{is_column_at, is_column_group_at, is_row_group, is_row_group_at};
pub use laws::{one_cell_borders, one_table_borders};
pub use part_laws::{grids_are_of_placed_cells, one_table_parts};
pub use parts::{Parts, table_parts};
pub use placed::PlacedCell;
pub use rows::{TableRow, footer_place, header_place};
pub use separate::own_borders;
