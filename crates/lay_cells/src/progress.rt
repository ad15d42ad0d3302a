//! Laws of cells that are worked on, whatever the work is. The functions do nothing.
//!
//! `specs/Progress/Grants.antt` counts the claims that were granted. `specs/Progress/Progress.antt` says that work on cells makes none,
//! drops none and dirties none, and `specs/Progress/Settled.antt` how a cell becomes clean.

mod grants;
mod progress;
mod settled;

pub use grants::{
    claims_count, clean_cells_count, finishes_count, first_shapes_draw, give_backs_count,
    marks_count, reshapes_count, reshapes_draw,
};
pub use progress::{
    claims_keep_rows, finishes_keep_rows, give_backs_keep_rows, keeping_is_transitive,
};
pub use settled::{finished_cells_are_clean, granted_claims_are_released, reused_cells_are_clean};
