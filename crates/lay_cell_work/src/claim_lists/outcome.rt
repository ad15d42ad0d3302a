//! What comes of a claim.

use crate::{Claim, Layout};
use lay_cells::Done;

/// What comes of a claim: a value of its cell, or the claim itself where memory was wanting.
#[derive(Drop)]
pub enum Outcome {
    Done(Done<Layout>),
    NoMemory(Claim),
}
