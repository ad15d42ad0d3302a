//! Laws of the cells of a document's contexts. The functions do nothing.
//!
//! `specs/ShapeLaws/NeedLaws.antt` ties the dependencies of cells to what the tasks of a layout need. Cells are the same before an edit
//! and after it where their keys are; `specs/ShapeLaws/RootKeys.antt` says that the root element's context is the first one in both.

mod laws;
mod root_keys;

pub use laws::needs_are_shaped;
pub use root_keys::root_stays_first;
