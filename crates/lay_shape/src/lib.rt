//! Which cells a document has, three for each of its contexts (CSS 2.2, 9.4.1): its preferred widths, the used sizes of its boxes, and
//! where these stand.
//!
//! `shape_of` of `specs/Shapes.antt` is the list of them with what each depends on: the table of `specs/Dependencies.antt`, in which an
//! absolutely positioned context depends on what is on the way out to its containing block (`specs/Ways.antt`).
//!
//! - `shape_laws`: laws that tie the dependencies of cells to what the tasks of a layout need.
//! - `touched`: which cells an edit changes by itself.
//! - `kept_shapes`: what an edit does to cells where it leaves which contexts there are.
#![tactic(auto)]

mod cell_key;
mod cell_shape;
mod context_phase;
pub mod kept_shapes;
mod laws;
mod levels;
mod needs;
mod numbers;
mod order;
pub mod shape_laws;
pub mod touched;
mod ways;

pub use cell_key::CellKey;
pub use cell_shape::shape;
pub use context_phase::ContextPhase;
pub use laws::{
    cells_are_of_contexts, cells_have_a_shape, cells_stand_once, contexts_are_of_own_nodes,
    needs_stand_before, ways_are_lists,
};
pub use needs::{key_of, needs_of, node_of};
pub use order::cells_of;
