//! Contexts that are to be compared.

ghost use Rattle.std.specs.Prelude.{◌≡◌, ◌<◌, length};
ghost use Rattle.lay_contexts.specs.Contexts.{boxes_in};
ghost use Rattle.lay_contexts.specs.FormattingContextList.{first_number};
ghost use Rattle.lay_context.specs.Measured.{is_measured};
ghost use Rattle.lay_shape.specs.Touched.ContextFlags.{AreContextFlags};

use lay_box_tree::BoxNode;
use lay_contexts::{Contexts, FormattingContexts};
use std::marker::Model;

/// The contexts of a document, lent to who compares them, with their formatting contexts, and for each context whether it is measured.
#[derive(Drop)]
pub struct MeasuredContexts<'a> {
    contexts: &'a Contexts,
    formatting_contexts: &'a FormattingContexts,
    measured: &'a [bool],
}

impl<'a> Model for MeasuredContexts<'a> {
    ghost use Rattle.lay_shape.specs.Touched.ContextFlags.{AreContextFlags, ContextLists};

    ghost Value = { ContextLists };

    ghost view = { λ m. record { contexts = m.contexts.now; formatting_contexts = m.formatting_contexts.now } };

    ghost invariant = { λ m. AreContextFlags m.contexts.now m.formatting_contexts.now m.measured.now };
}

impl<'a> MeasuredContexts<'a> {
    /// These contexts, with flags that say whether they are measured.
    pub fn new(
        contexts: &'a Contexts,
        formatting_contexts: &'a FormattingContexts,
        measured: &'a [bool],
    ) -> MeasuredContexts<'a>
        requires { AreContextFlags contexts.now formatting_contexts.now measured.now }
        ensures { result ≡ record { contexts = contexts.now; formatting_contexts = formatting_contexts.now } }
    {
        MeasuredContexts {
            contexts,
            formatting_contexts,
            measured,
        }
    }

    /// The contexts.
    pub(crate) fn contexts(&self) -> &Contexts
        ensures { result.now ≡ self.now.contexts }
    {
        self.contexts
    }

    /// Whether the context with this number is measured.
    pub(crate) fn is_measured(&self, i: usize) -> bool
        requires { i < length self.now.contexts }
        ensures { result ≡ is_measured self.now.formatting_contexts (first_number self.now.contexts i) }
    {
        self.measured[i]
    }

    /// The boxes of the context with this number.
    pub(crate) fn boxes(&self, i: usize) -> &[BoxNode]
        requires { i < length self.now.contexts }
        ensures { result.now ≡ boxes_in self.now.contexts i }
    {
        self.contexts.at(i).boxes().as_slice()
    }
}
