//! Contexts among the contexts of a document.

/// A context of a document, and where its box stands outside it.
#[derive(Clone, Copy, Debug, PartialEq, Eq)]
pub struct ContextSpot {
    /// The place of its node in the document.
    pub place: usize,
    /// The number of the context around it; of the root's its own, 0.
    pub around: usize,
    /// The place of its box among the boxes of that; of the root's 0.
    pub at: usize,
}
