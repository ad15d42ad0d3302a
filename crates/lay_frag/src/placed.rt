//! Contexts on the page.

ghost use Rattle.std.specs.Prelude.{◌≡◌, ◌<◌, ◌+ℤ◌, Some, length, slice_get};
ghost use Rattle.lay_units.specs.Units.{IsPosition, IsSum};
ghost use Rattle.lay_frag.specs.Pieces.{moved, page_pieces, IsContextInRange};

use crate::Frag;
use lay_doc::NodeId;
use lay_units::{Rect, Unit};
use std::marker::Model;
use std::sync::Arc;

/// The pieces of one context, counted from its border box: that border box itself, and then, in the
/// order of its box tree, its boxes and, line by line, its lines, inline boxes and texts.
#[derive(Drop, Debug)]
pub struct Pieces {
    items: Vec<Frag>,
}

impl Model for Pieces {
    ghost use Rattle.std.specs.Prelude.{List};
    ghost use Rattle.lay_frag.specs.declared.frag.Frag.{Frag};

    ghost Value = { List Frag };

    ghost view = { λ p. p.items.items };
}

impl Pieces {
    /// The list of these pieces, which is taken over without a copy.
    pub fn new(items: Vec<Frag>) -> Pieces
        ensures { result ≡ items.items }
    {
        Pieces { items }
    }

    /// The pieces, in order.
    pub fn as_slice(&self) -> &[Frag]
        ensures { result.now ≡ self.now }
    {
        self.items.as_slice()
    }
}

/// A context on the page: its element, its border box in page coordinates, the downward shift of its
/// content (not 0 only in table cells), and its pieces.
#[derive(Drop, Debug)]
pub struct Placed {
    node: NodeId,
    rect: Rect,
    shift: Unit,
    pieces: Arc<Pieces>,
}

impl Model for Placed {
    ghost use Rattle.lay_frag.specs.Pieces.{Context};

    ghost Value = { Context };

    ghost view = { λ p. record { node = p.node; rect = p.rect; shift = p.shift; pieces = p.pieces.value } };
}

impl Placed {
    /// A context of these parts.
    pub fn new(node: NodeId, rect: Rect, shift: Unit, pieces: Arc<Pieces>) -> Placed
        ensures { result ≡ record { node = node; rect = rect; shift = shift; pieces = pieces.value } }
    {
        Placed {
            node,
            rect,
            shift,
            pieces,
        }
    }

    /// Its element.
    pub fn node(&self) -> NodeId
        ensures { result ≡ self.now.node }
    {
        self.node
    }

    /// Its border box, in page coordinates.
    pub fn rect(&self) -> Rect
        ensures { result ≡ self.now.rect }
    {
        self.rect
    }

    /// The downward shift of its content.
    pub fn shift(&self) -> Unit
        ensures { result ≡ self.now.shift }
    {
        self.shift
    }

    /// Its pieces, counted from its border box.
    pub fn pieces(&self) -> &[Frag]
        ensures { result.now ≡ self.now.pieces }
    {
        self.pieces.as_slice()
    }

    /// The piece with this number, in page coordinates.
    pub fn page_piece(&self, k: usize) -> Frag
        requires range { IsContextInRange self.now }
        requires place { k < length self.now.pieces }
        ensures { slice_get (page_pieces self.now) k ≡ Some result }
    {
        let piece = piece_at(self.pieces.as_slice(), k);
        if k == 0 {
            return Frag {
                rect: self.rect,
                ..piece
            };
        }
        moved(piece, self.rect.x, further(self.rect.y, self.shift))
    }
}

/// The piece with this number.
pub fn piece_at(pieces: &[Frag], k: usize) -> Frag
    requires { k < length pieces.now }
    ensures { slice_get pieces.now k ≡ Some result }
{
    pieces[k]
}

fn moved(frag: Frag, right: Unit, down: Unit) -> Frag
    requires right { IsPosition (right.0 +ℤ frag.rect.x.0) }
    requires down { IsPosition (down.0 +ℤ frag.rect.y.0) }
    ensures { result ≡ moved right.0 down.0 frag }
{
    Frag {
        rect: Rect {
            x: further(right, frag.rect.x),
            y: further(down, frag.rect.y),
            ..frag.rect
        },
        ..frag
    }
}

/// A position, moved by a length; both are in 1/64 px.
pub fn further(from: Unit, by: Unit) -> Unit
    requires { IsSum (from.0 +ℤ by.0) }
    ensures { result ≡ record { 0 = from.0 +ℤ by.0 } }
{
    Unit(from.0 + by.0)
}
