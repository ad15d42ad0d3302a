//! Histories of a document that editors change by lists of edits, each taken whole or not at all.
//!
//! A history is a list of entries (`specs/Histories.antt`). It is legal where each reply is right for the document as
//! it was then (`specs/Legal.antt`); it answers the commands of editors, and in turn where they take turns
//! (`specs/Calls.antt`). The versions that it publishes have trees (`specs/Trees.antt`). `specs/Laws.antt` says what
//! follows of these definitions.
//!
//! - `edits`: lists of edits, the commands of editors that hold them, and the replies to these.
#![tactic(auto)]

pub mod edits;
mod laws;
mod published_tree;

pub use laws::{
    few_versions, one_history, one_order, refusals_are_within, shown_versions_rise, versions_rise,
};
pub use published_tree::{PublishedTree, tree_at};
