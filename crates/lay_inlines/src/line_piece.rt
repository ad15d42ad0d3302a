//! The pieces of lines.

ghost use Rattle.std.specs.Prelude.{◌≡◌};

use lay_units::Rect;
use std::marker::Model;

/// What a piece is of.
#[derive(Clone, Copy, Debug, PartialEq, Eq)]
pub enum LinePieceKind {
    /// A line box.
    Line,
    /// The part of an inline box on a line: its border box there.
    Inline,
    /// The part of a text on a line.
    Text,
    /// The border box of an atomic inline-level box.
    Atomic,
}

/// A piece on a line, in 1/64 px. A line box has the number of the block container, the others those of their own
/// boxes. The width of an inline box, an atomic box or a text may be negative.
#[derive(Clone, Copy, Debug, PartialEq, Eq)]
pub struct LinePiece {
    pub kind: LinePieceKind,
    pub node: u32,
    pub rect: Rect,
}

/// The pieces of lines: line by line, and on each line in document order.
#[derive(Drop)]
pub struct LinePieceList {
    items: Vec<LinePiece>,
}

impl Model for LinePieceList {
    ghost use Rattle.std.specs.Prelude.{List};
    ghost use Rattle.lay_inlines.specs.declared.line_piece.LinePiece.{LinePiece};

    ghost Value = { List LinePiece };

    ghost view = { λ l. l.items.items };
}

impl LinePieceList {
    /// The list of these, which is taken over without a copy.
    pub fn new(items: Vec<LinePiece>) -> LinePieceList
        ensures { result ≡ items.items }
    {
        LinePieceList { items }
    }

    pub fn as_slice(&self) -> &[LinePiece]
        ensures { result.now ≡ self.now }
    {
        self.items.as_slice()
    }
}
