//! The pieces of the lines of a block container.

ghost use Rattle.std.specs.Prelude.{◌≡◌, ◌++◌, [], IsFalse, IfOk, OnOk};
ghost use Rattle.lay_lines.specs.Content.LineContents.{boxes_of};
ghost use Rattle.lay_lines.specs.Lines.{frame_of};
ghost use Rattle.lay_lines.specs.Rows.{next_frame};
ghost use Rattle.lay_inlines.specs.Bounds.{GeometryWithin, LineWithin, PensWithin};
ghost use Rattle.lay_inlines.specs.LinePieces.{blank_of, pieces_if_seen, pieces_of};
ghost use Rattle.lay_inlines.specs.OpenBoxes.{open_after};
ghost use Rattle.lay_inlines.specs.Strokes.{parts_of};

use crate::align::Align;
use crate::line::{Line, Sheet};
use crate::line_piece::{LinePiece, LinePieceList};
use crate::open_boxes::pass;
use crate::slices::{back, front};
use lay_lines::content::{Frame, InlineArea, LineContent, Stretch};
use lay_lines::{Ended, next_frame};
use lay_units::{NoMemory, Unit};
use std::alloc::Global;

/// A block container: its number, the left and right edge of its content box, and its `text-align`.
#[derive(Clone, Copy)]
pub struct Container {
    pub node: u32,
    pub left: Unit,
    pub right: Unit,
    pub align: Align,
}

/// The lines of a block container: its content, the rows that it was laid out in, and the areas of the boxes by
/// their number. A box that has none there is as high as nothing and has no margins.
#[derive(Clone, Copy)]
pub struct LinesGeometry<'a> {
    pub container: Container,
    pub content: &'a LineContent,
    pub rows: &'a [Ended],
    pub areas: &'a [InlineArea],
}

/// The pieces of these lines (CSS 2.2, 9.4.2, 10.8.1, 16.2): line by line the line box, and then in document order its
/// inline boxes, atomic boxes and texts, each on its own baseline. A line that isn't seen has none. All lengths are in
/// 1/64 px; the left edge is within 2^50 of 0, and lines and areas within the bounds of `specs/Bounds.antt`. It gives
/// NoMemory where memory runs out.
pub fn line_pieces(alloc: Global, lines: &LinesGeometry) -> Result<LinePieceList, NoMemory>
    requires { GeometryWithin lines.now.container lines.now.rows.now lines.now.areas.now }
    ensures { IfOk result (λ l. l
        ≡ pieces_of lines.now.container lines.now.content.now lines.now.rows.now lines.now.areas.now) }
{
    let mut pieces = Vec::new(alloc);
    let mut sheet = Sheet::new(alloc);
    let mut open_boxes = Vec::new(alloc);
    let mut frame = first_frame(lines);
    let mut rest = lines.content.stretches();
    for k in 0..lines.rows.len() {
        let row = &lines.rows[k];
        let line = Line {
            container: lines.container,
            frame,
            row,
            areas: lines.areas,
        };
        let taken = front(rest, row.reach.count);
        put_row(&mut sheet, &mut pieces, &open_boxes, &line, taken)?;
        pass_row(&mut open_boxes, lines.content.has_boxes(), taken)?;
        frame = next_frame(&frame, row.seen);
        rest = back(rest, row.reach.count);
    }
    Ok(LinePieceList::new(pieces))
}

/// Adds the pieces of a line on which these inline boxes are open from its start, where it is seen.
fn put_row(
    sheet: &mut Sheet,
    out: &mut Vec<LinePiece>,
    open_boxes: &[u32],
    line: &Line,
    taken: &[Stretch],
) -> Result<(), NoMemory>
    requires line { LineWithin line.now.container line.now.frame line.now.row.now line.now.areas.now }
    requires pens { PensWithin line.now.frame (blank_of line.now.frame line.now.row.now) (parts_of taken.now) }
    ensures { OnOk result (out.new.items
        ≡ out.old.items ++ pieces_if_seen line.now.container line.now.areas.now line.now.frame line.now.row.now open_boxes.now
        (parts_of taken.now)) }
{
    if line.row.seen {
        sheet.put_line(out, line, open_boxes, taken)?;
    }
    Ok(())
}

/// Goes over the content of a line: the open boxes are then those after it. None opens where there are no boxes.
fn pass_row(open_boxes: &mut Vec<u32>, has_boxes: bool, taken: &[Stretch]) -> Result<(), NoMemory>
    requires none { IsFalse has_boxes → open_boxes.old.items ≡ [] }
    requires no_boxes { IsFalse has_boxes → boxes_of taken.now ≡ 0 }
    ensures { OnOk result (open_boxes.new.items ≡ open_after open_boxes.old.items (parts_of taken.now)) }
{
    if has_boxes {
        pass(open_boxes, taken)?;
    }
    Ok(())
}

fn first_frame(lines: &LinesGeometry) -> Frame
    ensures { result ≡ frame_of lines.now.content.now lines.now.container.left lines.now.container.right }
{
    Frame {
        left: lines.container.left,
        right: lines.container.right,
        strut: lines.content.strut(),
        indent: lines.content.indent(),
        tab: lines.content.tab(),
    }
}
