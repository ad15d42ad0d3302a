//! The boxes of one context that hold lines.

ghost use Rattle.std.specs.Prelude.{◌≡◌, ◌<◌, Some, None, length, IfOk, IfSome};
ghost use Rattle.lay_line_items.specs.InlineSegments.{segments_in};
ghost use Rattle.lay_line_measures.specs.SeenLines.{has_seen_line};
ghost use Rattle.lay_flow_boxes.specs.ContextBlocks.{content_of_box, line_container, lines_in};
ghost use Rattle.lay_flow_boxes.specs.FlowShapes.{measures_in};
ghost use Rattle.lay_flow_boxes.specs.LineBoxes.{IsShaping};

use crate::box_columns::length_at;
use crate::context_blocks::{content_right, inside_edge};
use crate::place_input::PlaceInput;
use lay_box_tree::InlinePart;
use lay_line_items::measured_items;
use lay_line_measures::{
    BoxMeasures, Container, has_seen_line, line_content, line_content_of_items,
};
use lay_lines::content::LineContent;
use lay_placements::sizes_at;
use lay_space::Segment;
use lay_units::{NoMemory, Unit};
use std::alloc::Global;

/// What flow boxes are made of: what the placement is given, which parts of inline boxes the boxes are, their left
/// border edges, and which of them hold inline-level boxes alone.
#[derive(Clone, Copy)]
pub(crate) struct Shaping<'a> {
    pub input: &'a PlaceInput,
    pub parts: &'a [InlinePart],
    pub lefts: &'a [Unit],
    pub inline_containers: &'a [bool],
}

/// What the lines of the box at k hold, where one of them is seen (CSS 2.2, 9.4.2).
pub(crate) fn lines_in(
    alloc: Global,
    of: &Shaping<'_>,
    k: usize,
) -> Result<Option<LineContent>, NoMemory>
    requires shaping { IsShaping of.now.input.now.boxes of.now.parts.now of.now.lefts.now of.now.inline_containers.now }
    requires place { k < length of.now.input.now.boxes }
    ensures { IfOk result (λ o. o ≡ lines_in (measures_in of.now.input.now of.now.parts.now) of.now.lefts.now k) }
{
    if !of.inline_containers[k] {
        return Ok(None);
    }
    let content = content_of_box(alloc, of, k)?;
    if has_seen_line(content.stretches()) {
        Ok(Some(content))
    } else {
        Ok(None)
    }
}

/// What lines of the box at k would hold. NoMemory is also the answer where that is out of the bounds of lines.
fn content_of_box(alloc: Global, of: &Shaping<'_>, k: usize) -> Result<LineContent, NoMemory>
    requires shaping { IsShaping of.now.input.now.boxes of.now.parts.now of.now.lefts.now of.now.inline_containers.now }
    requires place { k < length of.now.input.now.boxes }
    ensures { IfOk result (λ c. c ≡ content_of_box (measures_in of.now.input.now of.now.parts.now) of.now.lefts.now k) }
{
    let content = match of.input.segments_at(k) {
        Some(segments) => content_of_segments(alloc, of, k, segments)?,
        None => content_of_items(alloc, of, k)?,
    };
    match content {
        Some(content) => Ok(content),
        None => Err(NoMemory),
    }
}

/// The same where these are the segments of the box, and None where it is out of the bounds of lines.
fn content_of_segments(
    alloc: Global,
    of: &Shaping<'_>,
    k: usize,
    segments: &[Segment],
) -> Result<Option<LineContent>, NoMemory>
    requires shaping { IsShaping of.now.input.now.boxes of.now.parts.now of.now.lefts.now of.now.inline_containers.now }
    requires place { k < length of.now.input.now.boxes }
    requires segments { segments.now ≡ segments_in of.now.input.now.face of.now.input.now.boxes k }
    ensures { IfOk result (λ o. IfSome o (λ c. c ≡ content_of_box (measures_in of.now.input.now of.now.parts.now) of.now.lefts.now k)) }
{
    let measures = measures_in(of);
    line_content(alloc, &measures, line_container(of, k), segments)
}

/// The same, from what stands in the lines of the box.
fn content_of_items(
    alloc: Global,
    of: &Shaping<'_>,
    k: usize,
) -> Result<Option<LineContent>, NoMemory>
    requires shaping { IsShaping of.now.input.now.boxes of.now.parts.now of.now.lefts.now of.now.inline_containers.now }
    requires place { k < length of.now.input.now.boxes }
    ensures { IfOk result (λ o. IfSome o (λ c. c ≡ content_of_box (measures_in of.now.input.now of.now.parts.now) of.now.lefts.now k)) }
{
    let measures = measures_in(of);
    let items = measured_items(alloc, of.input.boxes(), of.parts, k, of.input.face())?;
    line_content_of_items(alloc, &measures, line_container(of, k), items.as_slice())
}

/// What the measures of boxes in lines are taken of.
fn measures_in<'a>(of: &Shaping<'a>) -> BoxMeasures<'a>
    ensures { result ≡ measures_in of.now.input.now of.now.parts.now }
{
    let input = of.input;
    BoxMeasures::new(
        input.boxes(),
        of.parts,
        input.sizes(),
        input.inner(),
        input.face(),
    )
}

/// The box at k, as the content of its lines takes it.
fn line_container(of: &Shaping<'_>, k: usize) -> Container
    requires shaping { IsShaping of.now.input.now.boxes of.now.parts.now of.now.lefts.now of.now.inline_containers.now }
    requires place { k < length of.now.input.now.boxes }
    ensures { result ≡ line_container (measures_in of.now.input.now of.now.parts.now) of.now.lefts.now k }
{
    let _ = of.input.context_boxes();
    let sizes = sizes_at(of.input.sizes(), k);
    let left = inside_edge(length_at(of.lefts, k), sizes);
    Container {
        place: k,
        containing: sizes.containing,
        left,
        right: content_right(left, sizes),
    }
}
