//! Where a box stands.

/// The number of a context, and the place of a box among its boxes.
#[derive(Clone, Copy)]
pub struct Spot {
    pub context: usize,
    pub place: usize,
}
