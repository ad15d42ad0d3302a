//! What claims come to: a claim has one work, so a batch of claims comes to what the claims come to one after another, on however many
//! threads, but for want of memory (`specs/OutcomeLaws/Laws.antt`).

mod laws;

pub use laws::{batches_are_one_by_one, one_work};
