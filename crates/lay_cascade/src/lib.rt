//! Which nodes the selectors of a sheet match, and how specific they are (CSS 2.2, chapter 5 and 6.4.3).
//!
//! The contracts of `is_matched` and `matched_nodes` cite `IsMatched` of `specs/Matching.antt`, a relation over ancestors and
//! siblings. The first asks about one node, the second about all. The sibling that counts is in `specs/Siblings.antt`, the
//! names of nodes in `specs/NodeNames.antt`.
//!
//! - `node_names`: what the nodes of a document are called.
//! - `styled`: the cascade itself, what nodes declare by a sheet and by themselves.
#![tactic(auto)]

mod class_sets;
mod counts;
mod fitting;
mod forward;
mod matching;
mod names;
pub mod node_names;
mod siblings;
pub mod styled;
mod windows;
mod words;

pub use class_sets::{ClassSet, sets_of};
pub use counts::{Specificity, specificity_of};
pub use forward::matched_nodes;
pub use matching::{Named, is_matched};
pub use siblings::adjacent_of;
