//! How high a line is, and which inline boxes are open after it.

ghost use Rattle.std.specs.Prelude.{◌≡◌, ◌≤◌, ◌<◌, ◌^◌, length, IsTrue, IfOk, OnOk};
ghost use Rattle.lay_valign.specs.LineShape.{IsShape};
ghost use Rattle.lay_valign.specs.PartsFit.{PartsFit};
ghost use Rattle.lay_lines.specs.Content.Extents.{any_shows, strut_alone, reading_of, read, read_all, reading_to, parts_to};
ghost use Rattle.lay_lines.specs.Content.LineContents.{boxes_of_part, total, HasNoBoxes};

use crate::content::budgets::boxes_of_part;
use crate::content::content::{InlineStart, Part, Stretch};
use crate::content::frame::{Extent, Frame};
use crate::content::line_parts::LineParts;
use lay_units::{NoMemory, Unit};
use lay_valign::{LineShape, ShiftList, align};
use std::alloc::Global;

/// Whether one of these inline boxes makes each line seen that it is on: it has a margin, a border or a padding at its top or
/// bottom (CSS 2.2, 9.4.2).
pub fn any_shows(boxes: &[InlineStart]) -> bool
    ensures { result ≡ any_shows boxes.now }
{
    for k in 0..boxes.len() {
        if boxes[k].shows {
            return true;
        }
    }
    false
}

/// The shape of a line that takes the first stretches, and at whose start these inline boxes are open, outermost first (CSS
/// 2.2, 10.8 and 10.8.1): how far its parts are raised and how far it reaches, in 1/64 px. The open boxes are then those
/// after it.
pub fn line_shape(
    alloc: Global,
    frame: &Frame,
    boxes: &mut Vec<InlineStart>,
    stretches: &[Stretch],
    count: usize,
) -> Result<LineShape, NoMemory>
    requires count { count ≤ length stretches.now }
    requires fits { PartsFit (parts_to frame.now boxes.old.items stretches.now count) }
    ensures shape { IfOk result (λ shape. IsShape
        (parts_to frame.now boxes.old.items stretches.now count) shape) }
    ensures boxes { IfOk result (λ _. boxes.new.items
        ≡ (reading_to frame.now boxes.old.items stretches.now count).open_boxes) }
{
    if boxes.is_empty() && has_no_boxes(stretches, count) {
        return Ok(strut_shape(frame.strut));
    }
    let line = line_parts(alloc, frame, boxes, stretches, count)?;
    align(alloc, line.as_slice())
}

/// The shape of a line of text alone, in no inline box: its only part is the strut.
fn strut_shape(strut: Extent) -> LineShape
    ensures { IsShape (strut_alone strut).parts result }
{
    LineShape {
        shifts: ShiftList::one(Unit(0)),
        above: strut.above,
        below: strut.below,
    }
}

/// Whether no inline box starts and no atomic box stands in the first stretches.
fn has_no_boxes(stretches: &[Stretch], count: usize) -> bool
    requires { count ≤ length stretches.now }
    ensures { IsTrue result → HasNoBoxes stretches.now count }
{
    for k in 0..count {
        if !is_text(stretches[k].parts.as_slice()) {
            return false;
        }
    }
    true
}

fn is_text(parts: &[Part]) -> bool
    ensures { IsTrue result → total boxes_of_part parts.now ≡ 0 }
{
    for k in 0..parts.len() {
        if boxes_of_part(&parts[k]) != 0 {
            return false;
        }
    }
    true
}

/// The parts of a line that takes the first stretches. The open boxes are then those after it.
fn line_parts(
    alloc: Global,
    frame: &Frame,
    boxes: &mut Vec<InlineStart>,
    stretches: &[Stretch],
    count: usize,
) -> Result<LineParts, NoMemory>
    requires count { count ≤ length stretches.now }
    requires few { length (parts_to frame.now boxes.old.items stretches.now count) < 2 ^ 32 }
    ensures { IfOk result (λ l. reading_of boxes.new.items l
        ≡ reading_to frame.now boxes.old.items stretches.now count) }
{
    let mut line = LineParts::first(alloc, frame.strut, boxes.as_slice())?;
    for k in 0..count {
        read_all(&mut line, boxes, stretches[k].parts.as_slice())?;
    }
    Ok(line)
}

fn read_all(
    line: &mut LineParts,
    boxes: &mut Vec<InlineStart>,
    parts: &[Part],
) -> Result<(), NoMemory>
    requires { length (read_all (reading_of boxes.old.items line.old) parts.now).line.parts < 2 ^ 32 }
    ensures { OnOk result (reading_of boxes.new.items line.new
        ≡ read_all (reading_of boxes.old.items line.old) parts.now) }
{
    for k in 0..parts.len() {
        read(line, boxes, &parts[k])?;
    }
    Ok(())
}

fn read(line: &mut LineParts, boxes: &mut Vec<InlineStart>, part: &Part) -> Result<(), NoMemory>
    requires { length line.old.parts < 2 ^ 32 }
    ensures { OnOk result (reading_of boxes.new.items line.new
        ≡ read (reading_of boxes.old.items line.old) part.now) }
{
    match part {
        Part::Start(start) => {
            boxes.push(*start)?;
            line.open(start.extent, start.shift)?;
        }
        Part::End(_) => {
            let _ = boxes.pop();
            line.close();
        }
        Part::Atomic(atomic) => {
            line.stand(atomic.extent, atomic.shift)?;
        }
        _ => {}
    }
    Ok(())
}
