//! The work of a layout by contexts: a cell is a phase of a context, and what it is given and answers has a part for each formatting
//! context in it, its own and those of its anonymous tables and cells (CSS 2.2, 9.4.1 and 17.2.1).
//!
//! `specs/CellInputs.antt` says what a cell is given, and `specs/CellLocal.antt` which values are right beside that: those whose parts
//! `IsLocal` of lay_context knows as right. `specs/PresentInputs.antt` has what a cell is given among the contexts of a document and the
//! values that its cells keep (`specs/KeptValues.antt`).
//!
//! Whoever holds a `Claim` can work its cell out without the document: `value_of_cell` fills in what the roots of a context give each
//! other, root by root, in the order that `specs/CellInputFits.antt` says there is.
//!
//! - `same_input`: whether two tasks of a layout are given the same.
//! - `cell_laws`: laws of the cells of a layout.
//! - `claim_lists`: claims by the batch, and what comes of them.
//! - `outcome_laws`: a claim has one work, so a batch of claims gives what its claims give one by one.
#![tactic(auto)]

mod cell_input;
pub mod cell_laws;
mod cell_value;
mod claim;
pub mod claim_lists;
mod columns;
mod computing;
mod filled_parts;
mod layout;
mod masked;
mod measuring;
pub mod outcome_laws;
mod placing;
mod root_input;
mod root_spot;
mod root_values;
mod same;
pub mod same_input;
mod sizing;

pub use cell_input::CellInput;
pub use cell_value::CellValue;
pub use claim::Claim;
pub use computing::value_of_cell;
pub use layout::{Layout, work_crosses_threads};
pub use masked::{masked_input, no_setting};
pub use root_input::RootInput;
pub use root_spot::RootSpot;
pub use same::same_cell_input;
