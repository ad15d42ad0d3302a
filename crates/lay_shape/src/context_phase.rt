//! Cells by the numbers of their contexts.

use lay_context::Phase;

/// One phase of the context with this number.
#[derive(Clone, Copy)]
pub struct ContextPhase {
    pub context: usize,
    pub phase: Phase,
}
