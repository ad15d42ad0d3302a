//! What the cells of a document keep, and that each call on them keeps it right (CSS 2.2, 9.4.1).
//!
//! - `table`: what a cell is given, of the values that cells keep, and the tree that these values are put together to.
//! - `steps`: laws of what each call does to the cells of a document.
//! - `list_steps`: laws of what a list of edits does to them.
//! - `settled`: what is known of cells after all of them were clean.
#![tactic(auto)]

pub mod list_steps;
pub mod settled;
pub mod steps;
pub mod table;
