//! The shared engine: editors and workers on threads of their own call one core, and what each editor is answered stands in one history.
//!
//! The core lies in the one slot of a table of `atomic_table`, whose words are the length of the history and whether the core is out; a
//! lock beside it makes threads wait. An editor carries a `Pass`, which knows the beginning of the history that it was told of, and its own
//! entries: after each of its calls that is a legal history whose last entry is the call (`Calls` in `specs/Passes.antt`). The rule of the
//! table is `IsKept` in `specs/Rules.antt`. Those who lay out cells come as guests, for claims by the batch (`specs/Batches.antt`).
#![tactic(auto)]

mod batches;
mod closing;
mod crossing;
mod engine;
mod entering;
mod helping;
mod pass;
mod starting;
mod table;
mod turn;
mod views;

pub use batches::{Batch, Exchange};
pub use engine::Engine;
pub use pass::Pass;
pub use starting::{Closer, Passes};
