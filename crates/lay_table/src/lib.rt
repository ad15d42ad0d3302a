//! Where the boxes of a table stand (CSS 2.2, 17.2, 17.4, 17.5 and 17.6.1): rows, cells, row groups, the table box, captions and
//! the wrapper around them, and their pieces.
//!
//! `table_placement` lays out the formatting context of one table, beside the used widths of lay_table_sizes and the boxes of the
//! captions and cells, and cites `IsTablePlacement` of `specs/TablePlacements.antt`. That stands on the rows (`specs/TableRows.antt`),
//! their groups (`specs/Groups.antt`), the flow of the wrapper (`specs/WrapperFlow.antt`) and where each box stands
//! (`specs/TableStandings.antt`). A table has one placement (`specs/Laws.antt`).
//!
//! Of the rows (17.5.3) there are their heights, where they start, their baselines, and how far the contents of cells are moved down in
//! them. Columns start by the same rule as rows (17.6.1). `table_rows` takes what the placement of a table is given
//! (`specs/TableInputs.antt`), and cites `HasRows` of `specs/TableRows.antt`. That stands on what rows need (`specs/RowNeeds.antt`), of
//! which lay_grid makes heights, and on where tracks start (`specs/Tracks.antt`). It is a relation, and has one value
//! (`specs/RowLaws.antt`).
#![tactic(auto)]

mod captions;
mod cell_align;
mod cells;
mod groups;
mod laws;
mod near;
mod pieces;
mod places;
mod placing;
mod row_heights;
mod row_laws;
mod row_needs;
mod shifts;
mod standings;
mod table_input;
mod tracks;
mod wrapper_flow;

pub use cell_align::CellAlign;
pub use cells::{cell_of, own_box_at, sizes_at, table_sizes};
pub use groups::OuterGroups;
pub use laws::{one_table_placement, some_table_placement};
pub use pieces::Extent;
pub use placing::table_placement;
pub use row_heights::{TableRows, cell_height, table_content, table_rows};
pub use row_laws::{cells_are_sized_once, one_table_rows, some_table_rows};
pub use row_needs::border_height;
pub use shifts::{row_baseline, shift_of};
pub use table_input::TableInput;
pub use tracks::Tracks;
