//! Relative positioning (CSS 2.2, 9.4.3): by how much the boxes of one formatting context are moved from where they stand.
//!
//! `relative_moves` answers by `HasMoves` of `specs/Relative/Moves.antt`: a box is moved by its own offset
//! (`specs/Relative/RelativeOffsets.antt`) and with the box that it stands in, or once stood in, where blocks broke an inline box
//! (9.2.1.1): its former parent, by `AreFormerParents` of `specs/Relative/FormerParents.antt`. Nothing but the place of a box depends
//! on it. There is such a column, and one alone (`specs/Relative/Laws.antt`).

mod box_moves;
mod former_parent;
mod former_parent_laws;
mod laws;
mod moves;
mod next_place;
mod offset;
mod subtree_end;

pub use box_moves::BoxMoves;
pub use former_parent::former_parents;
pub use former_parent_laws::one_former_parent;
pub use laws::{one_column_of_moves, some_column_of_moves};
pub use moves::relative_moves;
pub use offset::{Offset, relative_offset};
