//! Claims by the batch: what is handed out at one time, and what comes of it.
//!
//! A `ClaimList` has at most 64 claims of cells, and `Outcomes` what came of each, in the same order: a value of the cell, or the claim
//! itself where memory was wanting. `specs/ClaimLists/Outcomes.antt` says which outcomes are those of a list of claims.

mod claim_list;
mod outcome;
mod outcomes;

pub use claim_list::ClaimList;
pub use outcome::Outcome;
pub use outcomes::Outcomes;
