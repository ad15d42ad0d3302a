//! One line.

ghost use Rattle.std.specs.Prelude.{◌≡◌, ◌<◌, ◌≤◌, ◌+ℤ◌, ◌||◌, if◌then◌else◌, IsFalse, ℕ, length, slice_get, Some, IfOk, IfErr};
ghost use Rattle.lay_units.specs.Units.{IsPosition};
ghost use Rattle.lay_lines.specs.declared.content.content.Stretch.{Stretch as StretchValue};
ghost use Rattle.lay_valign.specs.LineShape.{IsShape};
ghost use Rattle.lay_valign.specs.PartsFit.{PartsFit};
ghost use Rattle.lay_lines.specs.Content.Extents.{any_shows, parts_to, reading_to, height_of};
ghost use Rattle.lay_lines.specs.Filling.{IsTop};
ghost use Rattle.lay_lines.specs.Meeting.{State, state_of, Meets, CanMeetAll, RoomsFit, IsFront};
ghost use Rattle.lay_lines.specs.Reaching.{IsReach};
ghost use Rattle.lay_lines.specs.Rows.{OpensNone, Row, IsFilled, IsRow, CanRow, position_of, line_row};

use crate::content::{Extent, InlineStart, any_shows, line_shape};
use crate::line::Line;
use crate::meeting::meet_all;
use crate::met::Met;
use crate::reach::Reach;
use crate::rest::Rest;
use crate::taking::take;
use crate::top::{Beginning, line_top};
use lay_floats::{Floats, one_float_place, one_room};
use lay_units::{NoMemory, Unit, plus};
use lay_valign::{LineShape, ShiftList};
use std::alloc::Global;
use std::mem;

/// A line that ended.
#[derive(Drop)]
pub struct Ended {
    pub top: Unit,
    /// How far its content comes in its room.
    pub reach: Reach,
    /// How far the baseline of each part of the line stands above the strut's: of the strut itself, of the inline
    /// boxes that are open at the line's start, outermost first, and then in order of each inline box that starts on
    /// the line and each atomic box on it.
    pub shifts: ShiftList,
    /// How far the line box reaches above and below the strut's baseline (CSS 2.2, 10.8.1).
    pub extent: Extent,
    pub seen: bool,
    /// Where what follows begins.
    pub to: Unit,
}

/// One line, and the floats that waited for its end. The open inline boxes are then those after it.
pub fn put_row(
    alloc: Global,
    floats: &mut Floats,
    met: &mut Met,
    boxes: &mut Vec<InlineStart>,
    rest: &Rest<'_>,
) -> Result<Ended, NoMemory>
    requires some { 0 < length rest.now.stretches.now }
    requires none { IsFalse rest.now.has_boxes → OpensNone boxes.old.items rest.now.stretches.now }
    requires can { CanRow
        (position_of rest.now.frame rest.now.top.0 boxes.old.items rest.now.stretches.now
        (state_of floats.old met.old)) }
    ensures row { IfOk result (λ e. (headed : State) × (filled : State)
        × IsRow (position_of rest.now.frame rest.now.top.0 boxes.old.items rest.now.stretches.now
        (state_of floats.old met.old)) (line_row e headed filled (state_of floats.new met.new))) }
    ensures boxes { IfOk result (λ e. boxes.new.items
        ≡ (reading_to rest.now.frame boxes.old.items rest.now.stretches.now e.reach.count).open_boxes) }
    ensures within { IfOk result (λ e. e.reach.count ≤ length rest.now.stretches.now) }
    ensures some { IfOk result (λ e. 0 < e.reach.count) }
    ensures stopped { IfErr result (λ _. (r : Row)
        → IsRow (position_of rest.now.frame rest.now.top.0 boxes.old.items rest.now.stretches.now
        (state_of floats.old met.old)) r → IsFront floats.new r.after.floats) }
{
    one_float_place();
    one_room();
    let ended = fill_row(alloc, floats, met, boxes, rest)?;
    let waiting = mem::replace(&mut met.put_off, Vec::new(alloc));
    let under = Line {
        frame: rest.frame,
        top: ended.to,
        stretches: rest.stretches,
    };
    let blank = Reach::none(&under);
    meet_all(floats, met, &under, &blank, waiting.as_slice())?;
    Ok(ended)
}

/// A line until the floats that wait are placed.
fn fill_row(
    alloc: Global,
    floats: &mut Floats,
    met: &mut Met,
    boxes: &mut Vec<InlineStart>,
    rest: &Rest<'_>,
) -> Result<Ended, NoMemory>
    requires some { 0 < length rest.now.stretches.now }
    requires none { IsFalse rest.now.has_boxes → OpensNone boxes.old.items rest.now.stretches.now }
    requires can { CanRow
        (position_of rest.now.frame rest.now.top.0 boxes.old.items rest.now.stretches.now
        (state_of floats.old met.old)) }
    ensures filled { IfOk result (λ e. (headed : State) × ((after : State)
        → IsFilled (position_of rest.now.frame rest.now.top.0 boxes.old.items rest.now.stretches.now
        (state_of floats.old met.old)) (line_row e headed (state_of floats.new met.new) after))) }
    ensures boxes { IfOk result (λ e. boxes.new.items
        ≡ (reading_to rest.now.frame boxes.old.items rest.now.stretches.now e.reach.count).open_boxes) }
    ensures stopped { IfErr result (λ _. (r : Row)
        → IsFilled (position_of rest.now.frame rest.now.top.0 boxes.old.items rest.now.stretches.now
        (state_of floats.old met.old)) r → IsFront floats.new r.filled.floats) }
{
    one_float_place();
    one_room();
    let start = Line {
        frame: rest.frame,
        top: rest.top,
        stretches: rest.stretches,
    };
    let Beginning { top, blank } = headed_top(floats, met, &start)?;
    let line = Line {
        frame: rest.frame,
        top,
        stretches: rest.stretches,
    };
    let reach = take(floats, met, &line, blank)?;
    let seen = is_seen(boxes, reach.is_seen(&line));
    let shape = row_shape(alloc, boxes, rest, reach.count)?;
    let extent = Extent {
        above: shape.above,
        below: shape.below,
    };
    let to = row_end(top, extent, seen, start.top);
    Ok(Ended {
        top,
        reach,
        shifts: shape.shifts,
        extent,
        seen,
        to,
    })
}

/// The shape of a line that takes so much. Where there are no boxes it is that of a line with no content. The open boxes are
/// then those after it.
fn row_shape(
    alloc: Global,
    boxes: &mut Vec<InlineStart>,
    rest: &Rest<'_>,
    count: usize,
) -> Result<LineShape, NoMemory>
    requires count { count ≤ length rest.now.stretches.now }
    requires none { IsFalse rest.now.has_boxes → OpensNone boxes.old.items rest.now.stretches.now }
    requires fits { (n : ℕ) → PartsFit (parts_to rest.now.frame boxes.old.items rest.now.stretches.now n) }
    ensures shape { IfOk result (λ shape. IsShape (parts_to rest.now.frame boxes.old.items rest.now.stretches.now count) shape) }
    ensures boxes { IfOk result (λ _. boxes.new.items
        ≡ (reading_to rest.now.frame boxes.old.items rest.now.stretches.now count).open_boxes) }
{
    if rest.has_boxes {
        return line_shape(alloc, &rest.frame, boxes, rest.stretches, count);
    }
    line_shape(alloc, &rest.frame, boxes, rest.stretches, 0)
}

fn is_seen(boxes: &Vec<InlineStart>, taken: bool) -> bool
    ensures { result ≡ (any_shows boxes.now.items || taken) }
{
    let shows = any_shows(boxes.as_slice());
    shows || taken
}

/// Where what follows a line begins: an unseen one has no height, and doesn't move down.
fn row_end(top: Unit, extent: Extent, seen: bool, from: Unit) -> Unit
    requires height { IsPosition (height_of extent) }
    requires end { IsPosition (if seen then (top.0 +ℤ height_of extent) else from.0) }
    ensures { result.0 ≡ (if seen then (top.0 +ℤ height_of extent) else from.0) }
{
    if seen {
        return plus(top, height_of(extent));
    }
    from
}

/// Meets the floats before the content, and finds where the line begins.
fn headed_top(floats: &mut Floats, met: &mut Met, start: &Line<'_>) -> Result<Beginning, NoMemory>
    requires some { 0 < length start.now.stretches.now }
    requires heads { (s : StretchValue) → slice_get start.now.stretches.now 0 ≡ Some s
        → CanMeetAll start.now.frame start.now.top.0 start.now.stretches.now 0 s.heads
        (state_of floats.old met.old) }
    requires rooms { (s : StretchValue) (headed : State) → slice_get start.now.stretches.now 0 ≡ Some s
        → Meets start.now.frame start.now.top.0 start.now.stretches.now 0 s.heads
        (state_of floats.old met.old) headed → RoomsFit start.now.frame headed.floats start.now.stretches.now }
    ensures heads { IfOk result (λ _. (s : StretchValue) → slice_get start.now.stretches.now 0 ≡ Some s
        → Meets start.now.frame start.now.top.0 start.now.stretches.now 0 s.heads
        (state_of floats.old met.old) (state_of floats.new met.new)) }
    ensures top { IfOk result (λ b. IsTop start.now.frame start.now.top.0 start.now.stretches.now floats.new
        b.top.0) }
    ensures fits { IfOk result (λ b. IsPosition b.top.0) }
    ensures blank { IfOk result (λ b. IsReach start.now.frame b.top.0 start.now.stretches.now floats.new b.blank) }
    ensures count { IfOk result (λ b. b.blank.count ≡ 0) }
    ensures stopped { IfErr result (λ _. (s : StretchValue) (headed : State)
        → slice_get start.now.stretches.now 0 ≡ Some s
        → Meets start.now.frame start.now.top.0 start.now.stretches.now 0 s.heads
        (state_of floats.old met.old) headed → IsFront floats.new headed.floats) }
{
    let blank = Reach::none(start);
    let heads = start.stretches[0].heads.as_slice();
    meet_all(floats, met, start, &blank, heads)?;
    Ok(line_top(floats, start))
}

fn height_of(extent: Extent) -> Unit
    requires { IsPosition (height_of extent) }
    ensures { result.0 ≡ height_of extent }
{
    plus(extent.above, extent.below)
}
