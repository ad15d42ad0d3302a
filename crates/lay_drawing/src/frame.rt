//! The edges of pieces, and the frame that holds them all.

ghost use Rattle.std.specs.Prelude.{◌≡◌, fold};
ghost use Rattle.std.specs.List.{All};
ghost use Rattle.lay_units.specs.Units.{IsPosition};
ghost use Rattle.lay_drawing.specs.Lines.{IsPiece};
ghost use Rattle.lay_drawing.specs.Marks.{IsMarked};
ghost use Rattle.lay_drawing.specs.Frames.{reach, edges, wider_span, joined, frame_around, FramesHold};

use crate::mark::Marked;
use lay_frag::Frag;
use lay_units::Unit;

/// Two edges on one axis of the page, in units of 1/64 px.
#[derive(Clone, Copy)]
pub struct Span {
    pub low: i64,
    pub high: i64,
}

/// The edges of a part of the page.
#[derive(Clone, Copy)]
pub struct Frame {
    pub across: Span,
    pub down: Span,
}

/// The least frame that holds all pieces; where there are none, one of no size.
pub(crate) fn frame_of(pieces: &[Marked]) -> Frame
    requires { All IsMarked pieces.now }
    ensures { result ≡ frame_around pieces.now }
{
    match pieces.split_first() {
        None => Frame {
            across: Span { low: 0, high: 0 },
            down: Span { low: 0, high: 0 },
        },
        Some((first, rest)) => frame_from(edges(&first.piece), rest),
    }
}

fn frame_from(first: Frame, pieces: &[Marked]) -> Frame
    requires { All IsMarked pieces.now }
    ensures { result ≡ fold (λ frame other. joined frame (edges other.piece)) first pieces.now }
{
    let mut frame = first;
    for piece in pieces {
        frame = joined(frame, edges(&piece.piece));
    }
    frame
}

/// The edges of a piece; a width or a height that is negative reaches to the left or upward.
pub(crate) fn edges(piece: &Frag) -> Frame
    requires { IsPiece piece.now }
    ensures { result ≡ edges piece.now }
{
    let rect = piece.rect;
    Frame {
        across: reach(rect.x, rect.w),
        down: reach(rect.y, rect.h),
    }
}

fn reach(from: Unit, size: Unit) -> Span
    requires from { IsPosition from.0 }
    requires size { IsPosition size.0 }
    ensures { result ≡ reach from.0 size.0 }
{
    let to = from.0 + size.0;
    Span {
        low: from.0.min(to),
        high: from.0.max(to),
    }
}

fn joined(a: Frame, b: Frame) -> Frame
    ensures { result ≡ joined a b }
{
    Frame {
        across: wider(a.across, b.across),
        down: wider(a.down, b.down),
    }
}

fn wider(a: Span, b: Span) -> Span
    ensures { result ≡ wider_span a b }
{
    Span {
        low: a.low.min(b.low),
        high: a.high.max(b.high),
    }
}

/// The frame of pieces holds each of them.
pub fn frames_hold()
    ensures { FramesHold }
{}
