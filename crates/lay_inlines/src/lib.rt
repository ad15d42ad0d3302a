//! The pieces of the lines of a block container: the line boxes, and on each of them the inline boxes, the atomic boxes
//! and the texts (CSS 2.2, 9.4.2, 10.8.1, 16.2 and 16.6.1).
//!
//! Contracts cite `pieces_of` of `specs/LinePieces.antt`, which stands on `specs/Strokes.antt` (where the content of
//! a line stands), `specs/Raises.antt` (how far it is raised) and `specs/Spans.antt` (from where to where boxes and
//! texts reach on it). `specs/Bounds.antt` says which lines it takes.
#![tactic(auto)]

mod align;
mod arithmetic;
mod laws;
mod line;
mod line_piece;
mod lines;
mod open_boxes;
mod raises;
mod slices;
mod spans;
mod stroke_list;
mod strokes;

pub use align::Align;
pub use laws::{
    content_ends_with_its_pen, each_atomic_box_has_one_piece, each_inline_box_has_one_piece,
    each_text_has_one_piece, raises_are_shifts_of_parts, removed_spaces_show_nothing,
};
pub use line_piece::{LinePiece, LinePieceKind, LinePieceList};
pub use lines::{Container, LinesGeometry, line_pieces};
