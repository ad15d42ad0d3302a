//! What is laid out.

ghost use Rattle.std.specs.Prelude.{◌≡◌, ◌<◌, length};
ghost use Rattle.lay_context.specs.Measured.{is_measured};
ghost use Rattle.lay_context.specs.MeasuredFlags.{AreMeasured};

use crate::medium::Medium;
use lay_contexts::FormattingContexts;

/// The formatting contexts of a document, what they are laid out on, and for each whether it is measured.
#[derive(Clone, Copy)]
pub struct FormattedDocument<'a> {
    pub medium: &'a Medium,
    pub contexts: &'a FormattingContexts,
    pub measured: &'a [bool],
    ghost are_measured: { AreMeasured contexts.now measured.now },
}

impl FormattedDocument<'_> {
    /// Whether the formatting context with this number is measured.
    pub(crate) fn is_measured(&self, i: usize) -> bool
        requires { i < length self.now.contexts.now }
        ensures { result ≡ is_measured self.now.contexts.now i }
    {
        self.measured[i]
    }
}
