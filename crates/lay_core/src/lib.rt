//! The core of an editing session: a document with its cells, the history of what its editors did to it, and the trees of the versions
//! that were published.
//!
//! `specs/State.antt` says what a core keeps, whatever calls came before: its history is legal, its document is that of
//! the history, what clean cells keep is of that document (lay_document_cells), and each version that the history publishes has its tree,
//! which solves the version's document. `specs/Steps.antt` says what each call of an editor leaves, `specs/Publishing.antt` how a version
//! is published, and `specs/Work.antt` and `Claims.antt` what work on the cells comes to. `specs/Laws.antt` says that what editors see is
//! decided by what they saw before, but for want of memory, and `specs/CellLaws.antt` that no call but an edit makes a cell, drops one or
//! dirties one. Histories are those of lay_history, and trees those of lay_context.
//!
//! - `core_laws`: laws of a core through all of its calls.
#![tactic(auto)]

mod answers;
mod cell_calls;
pub mod core_laws;
mod core_state;
mod editing;
mod editor_calls;
mod laws;
mod publishing;
mod showing;

pub use answers::Publish;
pub use core_state::Core;
pub use laws::{
    calls_work, cell_calls_keep_history, last_tree, one_edit, one_latest, one_publishing,
    one_refreshing, one_seen_edit, one_settling, one_sync, shown_trees,
};
pub use lay_document_cells::{Answer, Idle, IdleKind, Next, Tally};
