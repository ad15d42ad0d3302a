//! What is painted of texts, inline boxes and atomic boxes.

ghost use Rattle.std.specs.Prelude.{◌≡◌, ◌^◌, pos, ◌+ℤ◌, All, Some, IfOk, if◌then◌else◌};
ghost use Rattle.lay_units.specs.Units.{IsUsed};
ghost use Rattle.lay_units.specs.Lengths.{no_length};
ghost use Rattle.lay_line_measures.specs.AreaBounds.{AreaNear};
ghost use Rattle.lay_line_measures.specs.InlineBoxes.{inline_area_at, area_in, inline_areas, inline_area, text_area};
ghost use Rattle.lay_sizes.specs.SizeBounds.{IsInset, SizeFits};
ghost use Rattle.lay_face.specs.Faces.{IsMeasure};
ghost use Rattle.lay_floats.specs.Within.{IsWithin};

use crate::atomic_boxes::atomic_area;
use crate::box_measures::BoxMeasures;
use crate::line_heights::{ascent, descent};
use lay_box_tree::{BoxNode, InlinePart, Role};
use lay_face::Face;
use lay_lines::content::InlineArea;
use lay_sizes::BoxSizes;
use lay_style::TextStyle;
use lay_units::{NoMemory, Unit};
use std::alloc::Global;

/// What is painted of each box of a context on its lines, by the place of the box (CSS 2.2, 10.6.1): the content area of
/// a text, the border box of an inline box and of an atomic box, and nothing of others. All lengths are in 1/64 px, those
/// above and below at most 2^60 of them from 0, and margins at most 2^36.
pub fn inline_areas(alloc: Global, measures: &BoxMeasures<'_>) -> Result<Vec<InlineArea>, NoMemory>
    ensures areas { IfOk result (λ v. v.items ≡ inline_areas measures.now) }
    ensures near { IfOk result (λ v. All AreaNear v.items) }
{
    let count = measures.boxes().len();
    let mut areas = Vec::with_capacity(alloc, count)?;
    for k in 0..count {
        areas.push(area_at(measures, k))?;
    }
    Ok(areas)
}

/// The area of the box at k.
fn area_at(measures: &BoxMeasures<'_>, k: usize) -> InlineArea
    ensures value { result ≡ inline_area_at measures.now k }
    ensures near { AreaNear result }
{
    match measures.boxes().get(k) {
        Some(node) => area_of(measures, k, node),
        None => NO_AREA,
    }
}

/// The area of this box, which is that at k.
fn area_of(measures: &BoxMeasures<'_>, k: usize, node: &BoxNode) -> InlineArea
    ensures value { result ≡ area_in measures.now k (Some node.now) }
    ensures near { AreaNear result }
{
    let style = &node.style.text;
    match node.role() {
        Role::Text => text_area(measures.face(), style),
        Role::Inline => inline_area(
            measures.face(),
            style,
            measures.sizes_at(k),
            measures.part_at(k),
        ),
        Role::Atomic => atomic_area(&measures.own_box_at(k)),
        _ => NO_AREA,
    }
}

const NO_AREA: InlineArea = InlineArea {
    above: Unit(0),
    below: Unit(0),
    margin_left: Unit(0),
    margin_right: Unit(0),
};

/// The content area of a text.
fn text_area(face: &Face, style: &TextStyle) -> InlineArea
    ensures value { result ≡ text_area face.now style.now }
    ensures near { AreaNear result }
{
    InlineArea {
        above: ascent(face, style),
        below: descent(face, style),
        margin_left: Unit(0),
        margin_right: Unit(0),
    }
}

/// The border box of an inline box, beside its margins.
fn inline_area(face: &Face, style: &TextStyle, sizes: BoxSizes, part: InlinePart) -> InlineArea
    requires { SizeFits sizes }
    ensures value { result ≡ inline_area face.now style.now sizes part }
    ensures near { AreaNear result }
{
    InlineArea {
        above: with_edge(ascent(face, style), sizes.edges.top),
        below: with_edge(descent(face, style), sizes.edges.bottom),
        margin_left: where_it_stands(part.first, sizes.widths.margin_left),
        margin_right: where_it_stands(part.last, sizes.widths.margin_right),
    }
}

/// How far a content area reaches with a border and a padding.
fn with_edge(reach: Unit, edge: Unit) -> Unit
    requires reach { IsMeasure reach.0 }
    requires edge { IsInset edge.0 }
    ensures value { result ≡ record { 0 = reach.0 +ℤ edge.0 } }
    ensures near { IsWithin (pos (2 ^ 36)) result.0 }
{
    Unit(reach.0 + edge.0)
}

/// A margin, where it stands on this part.
fn where_it_stands(here: bool, margin: Unit) -> Unit
    requires { IsUsed margin.0 }
    ensures value { result ≡ (if here then margin else no_length) }
    ensures near { IsWithin (pos (2 ^ 36)) result.0 }
{
    if here { margin } else { Unit(0) }
}
