//! Laws of a core through all of its calls. The functions do nothing.
//!
//! `specs/CoreLaws/ReachedCores.antt` says which cores calls lead to. `specs/CoreLaws/GivenInputs.antt` says what a cell is given in
//! the layout of a document (CSS 2.2, 9.4.1), whatever cells keep; `specs/CoreLaws/InputChanges.antt` how often that changes in a
//! history, and `specs/CoreLaws/Turns.antt` how often it turned. `specs/CoreLaws/Laws.antt` says that the turns of a cell that is there
//! are at most these changes, and that batches of claims come to what the claims come to one after another.

mod laws;

pub use laws::{
    clean_cells_are_given, granted_batches_are_one_by_one, granted_claims_have_one_work,
    grants_are_paid_by_changes, grants_are_within, layouts_give_inputs, one_given_input,
    one_list_of_changes, origins_stay, ready_cells_are_given, turns_are_changes, turns_are_few,
    turns_are_of_versions, turns_are_within, versions_are_documents,
};
