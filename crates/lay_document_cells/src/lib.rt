//! A document with its cells (CSS 2.2, 9.4.1): what is kept of its layout while editors change it, and the calls that do that.
//!
//! `IsOfDocument` of `specs/State.antt` holds after each call: what a clean cell keeps is of the input that it would be given now. So the
//! tree that is put together where all cells are clean is the layout of the document. `specs/Edits.antt` says what an edit does to the
//! cells, `specs/Settling.antt` how they are settled, `specs/Claims.antt` how work on them is handed out, `specs/Batches.antt` so by the
//! batch, and `specs/Outcomes.antt` what comes of it. `Works` of `specs/Steps.antt` is what any call but an edit comes to: no such call
//! makes a cell, drops one or dirties one (`specs/Laws.antt`).
#![tactic(auto)]

mod answers;
mod batches;
mod claims;
mod document_cells;
mod document_table;
mod following;
mod idle;
mod laws;
mod medium;
mod settling;
mod since_edits;
mod steps;
mod tally;
mod unchanged;
mod walking;

pub use answers::{Answer, Next};
pub use document_cells::DocumentCells;
pub use idle::{Idle, IdleKind};
pub use laws::{
    claims_work, clean_cells_are_counted, one_edit, settling_gives_nothing_back, settling_works,
    stopping_works, trees_list_contexts, work_keeps_cells,
};
pub use tally::Tally;
