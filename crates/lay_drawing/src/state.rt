//! Where a report is while it is read.

ghost use Rattle.std.specs.List.{All};
ghost use Rattle.lay_drawing.specs.Lines.{IsPiece};

use crate::places::Place;
use lay_frag::Frag;

/// Why reading stops.
#[derive(Clone, Copy)]
pub enum Stop {
    /// The line of this number, from 1, isn't one of a report.
    BadLine(u64),
    /// Memory ran out.
    NoMemory,
}

/// What was read of a report.
#[derive(Drop)]
pub struct Reading {
    /// The version whose tree is wanted; None: the last one.
    pub wanted: Option<u64>,
    pub place: Place,
    /// How many lines there were.
    pub count: u64,
    /// Whether a line showed the wanted tree.
    pub is_shown: bool,
    /// Whether a piece that comes next is one of it.
    pub is_open: bool,
    /// The pieces of the wanted tree.
    pub pieces: Vec<Frag>,
    /// The line that isn't ended yet.
    pub text: Vec<u8>,
    ghost are_pieces: { All IsPiece pieces.items },
}
