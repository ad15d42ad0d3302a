//! The pieces of one line.

ghost use Rattle.std.specs.Prelude.{◌≡◌, ◌++◌, ◌-ℤ◌, [], All, map, reverse, OnOk};
ghost use Rattle.lay_inlines.specs.Bounds.{IsPlace, RowWithin, AreaWithin, PensWithin, SpanWithin};
ghost use Rattle.lay_inlines.specs.Bounds.{IsOrigin, IsLineBaseline, IsRaise, RaiseWithin, LineWithin};
ghost use Rattle.lay_inlines.specs.LinePieces.{line_box, piece_of, baseline_of, origin_of, blank_of, line_pieces_of};
ghost use Rattle.lay_inlines.specs.Strokes.{parts_of};

use crate::align::shift_of;
use crate::arithmetic::{minus, plus};
use crate::line_piece::{LinePiece, LinePieceKind};
use crate::lines::Container;
use crate::raises::{Raises, behind_strut};
use crate::spans::{Behind, Ends, OpenBoxes, Span, area_at};
use crate::stroke_list::StrokeList;
use crate::strokes::draw;
use lay_lines::Ended;
use lay_lines::content::{Frame, InlineArea, Pen, Stretch};
use lay_units::{NoMemory, Rect, Unit};
use std::alloc::Global;

/// A line, its container, what it has from there, and the areas of the boxes.
#[derive(Clone, Copy)]
pub struct Line<'a> {
    pub container: Container,
    pub frame: Frame,
    pub row: &'a Ended,
    pub areas: &'a [InlineArea],
}

/// Where the pen's place 0 is, and the baseline.
#[derive(Clone, Copy)]
pub struct Origin {
    pub x: Unit,
    pub y: Unit,
}

/// What is kept of one line while its pieces are found, in memory that serves one line after the other.
#[derive(Drop)]
pub(crate) struct Sheet {
    alloc: Global,
    strokes: StrokeList,
    behind: Behind,
}

impl Sheet {
    pub(crate) fn new(alloc: Global) -> Sheet
        ensures { result.strokes ≡ [] }
    {
        Sheet {
            alloc,
            strokes: StrokeList::new(alloc),
            behind: Behind::new(alloc),
        }
    }

    /// Adds the pieces of a line that takes these stretches, where these inline boxes are open from its start.
    pub(crate) fn put_line(
        &mut self,
        out: &mut Vec<LinePiece>,
        line: &Line,
        open_boxes: &[u32],
        taken: &[Stretch],
    ) -> Result<(), NoMemory>
        requires line { LineWithin line.now.container line.now.frame line.now.row.now line.now.areas.now }
        requires pens { PensWithin line.now.frame (blank_of line.now.frame line.now.row.now) (parts_of taken.now) }
        ensures { OnOk result (out.new.items
            ≡ out.old.items ++ line_pieces_of line.now.container line.now.areas.now line.now.frame line.now.row.now open_boxes.now
            (parts_of taken.now)) }
    {
        let blank = Pen::blank(&line.frame, line.row.reach.start);
        self.strokes.clear();
        let shifts = line.row.shifts.as_slice();
        let mut raises = Raises::new(self.alloc, shifts, open_boxes.len())?;
        let last = draw(&mut self.strokes, &mut raises, &line.frame, blank, taken)?;
        let ends = Ends {
            start: blank.at,
            end: last.solid,
        };
        let open_boxes = OpenBoxes {
            nodes: open_boxes,
            raises: behind_strut(shifts),
        };
        self.behind
            .fill(line.areas, &self.strokes, &open_boxes, ends)?;
        out.push(line_box(line.container.node, line.row))?;
        write(
            out,
            &mut self.behind.spans,
            line.areas,
            line.origin(last.solid),
        )?;
        Ok(())
    }
}

impl Line<'_> {
    /// Where the pen's place 0 is, if content ends here.
    fn origin(&self, end: Unit) -> Origin
        requires line { LineWithin self.now.container self.now.frame self.now.row.now self.now.areas.now }
        requires end { IsPlace end.0 }
        ensures x { result.x.0 ≡ origin_of self.now.container self.now.row.now end.0 }
        ensures y { result.y.0 ≡ baseline_of self.now.row.now }
        ensures x_within { IsOrigin result.x.0 }
        ensures y_within { IsLineBaseline result.y.0 }
    {
        let room = minus(self.row.reach.end, self.container.left);
        let shift = shift_of(self.container.align, minus(room, end));
        Origin {
            x: plus(self.container.left, shift),
            y: plus(self.row.top, self.row.extent.above),
        }
    }
}

fn line_box(node: u32, row: &Ended) -> LinePiece
    requires { RowWithin row.now }
    ensures { result ≡ line_box node row.now }
{
    LinePiece {
        kind: LinePieceKind::Line,
        node,
        rect: Rect {
            x: row.reach.start,
            y: row.top,
            w: minus(row.reach.end, row.reach.start),
            h: plus(row.extent.above, row.extent.below),
        },
    }
}

/// Adds what these spans show, the last of which comes first.
fn write(
    out: &mut Vec<LinePiece>,
    spans: &mut Vec<Span>,
    areas: &[InlineArea],
    origin: Origin,
) -> Result<(), NoMemory>
    requires spans { All SpanWithin spans.old.items }
    requires areas { All AreaWithin areas.now }
    requires x { IsOrigin origin.x.0 }
    requires y { IsLineBaseline origin.y.0 }
    ensures { OnOk result (out.new.items
        ≡ out.old.items ++ map (piece_of areas.now origin.x.0 origin.y.0) (reverse spans.old.items)) }
{
    while let Some(span) = spans.pop() {
        out.push(piece_of(&span, areas, origin))?;
    }
    Ok(())
}

fn piece_of(span: &Span, areas: &[InlineArea], origin: Origin) -> LinePiece
    requires span { SpanWithin span.now }
    requires areas { All AreaWithin areas.now }
    requires x { IsOrigin origin.x.0 }
    requires y { IsLineBaseline origin.y.0 }
    ensures { result ≡ piece_of areas.now origin.x.0 origin.y.0 span.now }
{
    let area = area_at(areas, span.node);
    LinePiece {
        kind: span.kind,
        node: span.node,
        rect: Rect {
            x: plus(origin.x, span.from),
            y: minus(raised(origin.y, span.raise), area.above),
            w: minus(span.to, span.from),
            h: plus(area.above, area.below),
        },
    }
}

/// The baseline that stands so far above another.
fn raised(baseline: Unit, raise: Unit) -> Unit
    requires baseline { IsLineBaseline baseline.0 }
    requires raise { RaiseWithin raise }
    ensures value { result.0 ≡ baseline.0 -ℤ raise.0 }
    ensures within { IsRaise result.0 }
{
    minus(baseline, raise)
}
