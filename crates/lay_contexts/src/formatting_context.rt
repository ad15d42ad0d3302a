//! The formatting contexts of a document.

ghost use Rattle.std.specs.Prelude.{◌≡◌, ◌<◌, ◌≤◌, IfOk, length};
ghost use Rattle.lay_contexts.specs.FormattingContexts.{AreFormattingContexts, formatting_context_at};
ghost use Rattle.lay_contexts.specs.Partings.{most_formatting_contexts};

use lay_box_tree::ContextBoxes;
use lay_units::NoMemory;
use std::marker::Model;
use std::sync::Arc;

/// A formatting context: whether it is that of an anonymous table or cell, the number of the one around it, the place of
/// its box among the boxes of that, its own boxes, and for each of those the number of the inner formatting context whose
/// box it is, or 0.
#[derive(Drop)]
pub struct FormattingContext {
    pub(crate) anonymous: bool,
    pub(crate) outer: usize,
    pub(crate) outer_box: usize,
    pub(crate) boxes: ContextBoxes,
    pub(crate) inner: Arc<Vec<usize>>,
}

impl Model for FormattingContext {
    ghost use Rattle.lay_contexts.specs.FormattingContexts.{FormattingContext as Plain};

    ghost Value = { Plain };

    ghost view = { λ c.
        record { anonymous = c.anonymous; outer = c.outer; outer_box = c.outer_box; boxes = c.boxes; inner = c.inner.value.items } };
}

impl FormattingContext {
    /// Whether it is that of an anonymous table or cell, and of no element.
    pub fn is_anonymous(&self) -> bool
        ensures { result ≡ self.now.anonymous }
    {
        self.anonymous
    }

    /// The number of the formatting context around it.
    pub fn outer(&self) -> usize
        ensures { result ≡ self.now.outer }
    {
        self.outer
    }

    /// The place of its box among the boxes of that.
    pub fn outer_box(&self) -> usize
        ensures { result ≡ self.now.outer_box }
    {
        self.outer_box
    }

    /// Its boxes.
    pub fn boxes(&self) -> &ContextBoxes
        ensures { result.now ≡ self.now.boxes }
    {
        &self.boxes
    }

    /// For each of its boxes the number of the inner formatting context whose box it is, or 0.
    pub fn inner(&self) -> &[usize]
        ensures { result.now ≡ self.now.inner }
    {
        self.inner.as_slice()
    }

    /// The same with other boxes. The numbers of inner ones are shared.
    pub(crate) fn with_boxes(&self, boxes: ContextBoxes) -> Result<FormattingContext, NoMemory>
        ensures { IfOk result (λ c. c ≡ record self.now { boxes = boxes }) }
    {
        let inner = self.inner.clone()?;
        Ok(FormattingContext {
            anonymous: self.anonymous,
            outer: self.outer,
            outer_box: self.outer_box,
            boxes,
            inner,
        })
    }
}

/// The formatting contexts of a document, at most 16,777,216, each behind the one around it.
#[derive(Drop)]
pub struct FormattingContexts {
    items: Vec<FormattingContext>,
}

impl Model for FormattingContexts {
    ghost use Rattle.std.specs.Prelude.{List, length, ◌≤◌};
    ghost use Rattle.lay_contexts.specs.FormattingContexts.{AreFormattingContexts, FormattingContext as Plain};
    ghost use Rattle.lay_contexts.specs.Partings.{most_formatting_contexts};

    ghost Value = { List Plain };

    ghost view = { λ c. c.items.items };

    ghost invariant = { λ c. (length c.items.items ≤ most_formatting_contexts) × AreFormattingContexts c.items.items };
}

impl FormattingContexts {
    /// These formatting contexts.
    pub(crate) fn new(items: Vec<FormattingContext>) -> FormattingContexts
        requires few { length items.items ≤ most_formatting_contexts }
        requires are { AreFormattingContexts items.items }
        ensures { result ≡ items.items }
    {
        FormattingContexts { items }
    }

    /// How many they are.
    pub fn len(&self) -> usize
        ensures count { result ≡ length self.now }
        ensures few { result ≤ most_formatting_contexts }
        ensures are { AreFormattingContexts self.now }
    {
        self.items.len()
    }

    /// The one with this number.
    pub fn at(&self, i: usize) -> &FormattingContext
        requires { i < length self.now }
        ensures context { result.now ≡ formatting_context_at self.now i }
        ensures are { AreFormattingContexts self.now }
    {
        &self.items[i]
    }
}
