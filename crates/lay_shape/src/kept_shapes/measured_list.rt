//! Contexts with flags that say which are measured.

use lay_contexts::{Contexts, FormattingContexts};

/// The contexts of a document, their formatting contexts, and for each context whether its preferred widths count.
#[derive(Clone, Copy)]
pub struct MeasuredList<'a> {
    pub contexts: &'a Contexts,
    pub formatting_contexts: &'a FormattingContexts,
    pub measured: &'a [bool],
}
