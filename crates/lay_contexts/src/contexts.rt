//! The contexts of a document.

ghost use Rattle.std.specs.Prelude.{◌≡◌, ◌<◌, ◌≤◌, IfOk, length, map, slice_set};
ghost use Rattle.std.specs.Arc.{arc_value};
ghost use Rattle.lay_units.specs.Limits.{most_nodes};
ghost use Rattle.lay_contexts.specs.Contexts.{AreContexts, context_at};

use crate::ContextSpot;
use lay_box_tree::ContextBoxes;
use lay_units::NoMemory;
use std::marker::Model;
use std::sync::Arc;

/// A context: the place of its node in the document, the number of the context around it, the place of its box
/// among the boxes of that, its own boxes, and for each of those the number of the inner context whose box it is,
/// or 0.
#[derive(Drop)]
pub struct Context {
    spot: ContextSpot,
    boxes: ContextBoxes,
    inner: Vec<usize>,
}

impl Model for Context {
    ghost use Rattle.lay_contexts.specs.Contexts.{Context as Plain};

    ghost Value = { Plain };

    ghost view = { λ c.
        record { place = c.spot.place; outer = c.spot.around; outer_box = c.spot.at; boxes = c.boxes; inner = c.inner.items } };
}

impl Context {
    /// The context at a spot, with these boxes and these numbers of inner contexts.
    pub fn new(spot: ContextSpot, boxes: ContextBoxes, inner: Vec<usize>) -> Context
        ensures { result ≡ record { place = spot.place; outer = spot.around; outer_box = spot.at; boxes = boxes; inner = inner.items } }
    {
        Context { spot, boxes, inner }
    }

    /// The place of its node in the document.
    pub fn place(&self) -> usize
        ensures { result ≡ self.now.place }
    {
        self.spot.place
    }

    /// The number of the context around it.
    pub fn outer(&self) -> usize
        ensures { result ≡ self.now.outer }
    {
        self.spot.around
    }

    /// The place of its box among the boxes of that.
    pub fn outer_box(&self) -> usize
        ensures { result ≡ self.now.outer_box }
    {
        self.spot.at
    }

    /// Its boxes.
    pub fn boxes(&self) -> &ContextBoxes
        ensures { result.now ≡ self.now.boxes }
    {
        &self.boxes
    }

    /// For each of its boxes the number of the inner context whose box it is, or 0.
    pub fn inner(&self) -> &[usize]
        ensures { result.now ≡ self.now.inner }
    {
        self.inner.as_slice()
    }

    /// Notes which context's box the one at k is.
    pub fn set_inner(&mut self, k: usize, number: usize)
        requires { k < length self.old.inner }
        ensures { self.new ≡ record self.old { inner = slice_set self.old.inner k number } }
    {
        self.inner[k] = number;
    }
}

/// The contexts of a document, each behind the one around it. A later list shares those that it keeps.
#[derive(Drop)]
pub struct Contexts {
    items: Vec<Arc<Context>>,
}

impl Model for Contexts {
    ghost use Rattle.std.specs.Prelude.{List, length, map, ◌≤◌};
    ghost use Rattle.std.specs.Arc.{arc_value};
    ghost use Rattle.lay_units.specs.Limits.{most_nodes};
    ghost use Rattle.lay_contexts.specs.Contexts.{Context as Plain, AreContexts};

    ghost Value = { List Plain };

    ghost view = { λ c. map arc_value c.items.items };

    ghost invariant = { λ c. (length c.items.items ≤ most_nodes) × AreContexts (map arc_value c.items.items) };
}

impl Contexts {
    /// These contexts.
    pub fn new(items: Vec<Arc<Context>>) -> Contexts
        requires few { length items.items ≤ most_nodes }
        requires are { AreContexts (map arc_value items.items) }
        ensures { result ≡ map arc_value items.items }
    {
        Contexts { items }
    }

    /// How many they are.
    pub fn len(&self) -> usize
        ensures count { result ≡ length self.now }
        ensures few { result ≤ most_nodes }
        ensures are { AreContexts self.now }
    {
        self.items.len()
    }

    /// The context with this number.
    pub fn at(&self, i: usize) -> &Context
        requires { i < length self.now }
        ensures context { result.now ≡ context_at self.now i }
        ensures are { AreContexts self.now }
    {
        arc_at(&self.items, i)
    }

    /// The same, shared.
    pub fn share(&self, i: usize) -> Result<Arc<Context>, NoMemory>
        requires { i < length self.now }
        ensures { IfOk result (λ c. c.value ≡ context_at self.now i) }
    {
        let shared = arc_at(&self.items, i).clone()?;
        Ok(shared)
    }
}

/// The context at a place of a list.
fn arc_at(items: &[Arc<Context>], i: usize) -> &Arc<Context>
    requires { i < length items.now }
    ensures { result.now.value ≡ context_at (map arc_value items.now) i }
{
    &items[i]
}
