//! Roots by the numbers of their contexts.

/// A root of the context with this number: 0 is its own box, and others are the anonymous tables and cells in it.
#[derive(Clone, Copy)]
pub struct ContextRoot {
    pub context: usize,
    pub root: usize,
}
