//! The cascade: what the nodes of a document declare by a style sheet and by themselves (CSS 2.2, 6.4).
//!
//! The contract of `styled` cites `IsCascaded` of `specs/Styled/Cascade.antt`: for each node and property the sheet's declaration of
//! the greatest weight, which yields to the node's own unless it is important. The law `styled_declares` says the same of the
//! greatest of all declarations that a node may have, its own among them, and `one_styled` that it is one document. The laws
//! `weights_are_numbers` and `own_is_number` say that weights are in the order of the one number that 6.4.3 makes of specificity.

mod candidates;
mod columns;
mod entry;
mod laws;
mod nodes;
mod selector_index;
mod styling;
mod weight;

pub use candidates::Candidate;
pub use entry::Entry;
pub use laws::{one_styled, own_is_number, styled_declares, weights_are_numbers};
pub use styling::styled;
pub use weight::Weight;
