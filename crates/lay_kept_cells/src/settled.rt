//! What is known of the cells of a document since all of them were clean: which keep what they kept then, and would be given what they
//! were given then, so that no input need be made of them, and none compared.
//!
//! Only an edit dirties cells. So at an edit of a document whose cells are all clean it is noted how many numbers were drawn (`Since`), and
//! of which contexts the boxes may change. A pair that is kept under a number up to that is the one that was kept then, as each claim
//! draws a greater one. Where the cell of a context that keeps its boxes keeps such a pair, and so does each cell that it depends on, it is
//! given what it was (`specs/Settled/Since.antt`, `specs/Settled/Laws.antt`).

mod laws;
mod since;

pub use laws::{
    claims_keep_since, edits_begin_since, edits_keep_since, finishes_keep_since,
    give_backs_keep_since, unchanged_cells_keep_inputs,
};
pub use since::Since;
