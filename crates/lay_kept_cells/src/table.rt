//! The contexts of a document (CSS 2.2, 9.4.1) with the places of their cells: what a cell is given, of the values that cells keep, and the
//! tree that is put together of these where all cells are clean.
//!
//! A table of contexts (`specs/Table/CellTables.antt`) knows of each formatting context which root of which context it is, and of each
//! context where its cells stand. So a value is found by the number of its formatting context, as lay_context asks for it, without a
//! search: `specs/Table/KeptValues.antt` of lay_cell_work lays the values that cells keep end to end.

mod cell_input_at;
mod cell_places;
mod cell_table;
mod cell_values;
mod context_root;
mod linked_roots;
mod links;
mod root_columns;
mod root_inputs;
mod tree;

pub use cell_input_at::input_at;
pub use cell_table::CellTable;
pub use cell_values::CellValues;
pub use context_root::ContextRoot;
pub use tree::tree_of;
