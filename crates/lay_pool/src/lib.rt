//! Batches of claims on threads that steal.
//!
//! `run_batch` computes the claims of a list on as many threads as it is told, and answers what came of each, in the order of the list:
//! `AreOutcomesOf` of lay_cell_work, whichever thread was at a claim and when. Each thread has a deque of the places that were dealt to it
//! and takes places of the others once it has none left. What a thread finds is known by the contract of what it runs
//! (`specs/Finds.antt`), and what none has found is computed at the end by the caller; so nothing has to be known of the deques.
//! No program calls it: cases do, and callers that have one list may.
//!
//! A `Hand` is what a worker has that lives on from batch to batch: it is dealt claims, computes them and steals those of others. What it
//! hands in comes of claims (`specs/Hands.antt`). Which claims those are no contract says. An engine knows by the number of each outcome
//! what it is of.
#![tactic(auto)]

mod batch;
mod deques;
mod draining;
mod hand;
mod member;
mod notes;

pub use batch::run_batch;
pub use hand::{Hand, hands};
