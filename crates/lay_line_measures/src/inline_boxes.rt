//! The edges of inline boxes.

ghost use Rattle.std.specs.Prelude.{◌≡◌, ◌+ℤ◌, if◌then◌else◌};
ghost use Rattle.lay_units.specs.Units.{IsPosition};
ghost use Rattle.lay_units.specs.Lengths.{no_length};
ghost use Rattle.lay_sizes.specs.SizeBounds.{SizeFits};
ghost use Rattle.lay_line_measures.specs.InlineBoxes.{end_at, inline_end_in, extent_at, shows_left_edge};
ghost use Rattle.lay_line_measures.specs.InlineBoxes.{shows_right_edge, shows_vertical_edge, start_at, inline_start_in};

use crate::box_measures::BoxMeasures;
use crate::line_heights::extent_of;
use crate::vertical_alignment::shift_at;
use lay_box_tree::InlinePart;
use lay_lines::content::{Extent, InlineEnd, InlineStart};
use lay_sizes::BoxSizes;
use lay_units::{Unit, is_nonzero, sum_of};
use lay_valign::Shift;

/// The start of the inline box at a place.
pub(crate) fn start_at(measures: &BoxMeasures<'_>, place: u32) -> InlineStart
    ensures { result ≡ start_at measures.now place }
{
    let k = place as usize;
    start_in(
        place,
        measures.sizes_at(k),
        measures.part_at(k),
        extent_at(measures, k),
        shift_at(measures, k),
    )
}

fn start_in(
    place: u32,
    sizes: BoxSizes,
    part: InlinePart,
    extent: Extent,
    shift: Shift,
) -> InlineStart
    requires { SizeFits sizes }
    ensures { result ≡ inline_start_in place sizes part extent shift }
{
    let shows = has_vertical_edges(&sizes);
    InlineStart {
        node: place,
        width: edges_width(part.first, sizes.widths.margin_left, sizes.edges.left),
        seen: shows || (part.first && has_left_edges(&sizes)),
        shows,
        extent,
        shift,
    }
}

/// The end of the inline box at a place.
pub(crate) fn end_at(measures: &BoxMeasures<'_>, place: u32) -> InlineEnd
    ensures { result ≡ end_at measures.now place }
{
    let k = place as usize;
    end_in(place, measures.sizes_at(k), measures.part_at(k))
}

fn end_in(place: u32, sizes: BoxSizes, part: InlinePart) -> InlineEnd
    requires { SizeFits sizes }
    ensures { result ≡ inline_end_in place sizes part }
{
    InlineEnd {
        node: place,
        width: edges_width(part.last, sizes.edges.right, sizes.widths.margin_right),
        seen: part.last && has_right_edges(&sizes),
    }
}

/// The width of two edges, where they stand on this part.
fn edges_width(here: bool, a: Unit, b: Unit) -> Unit
    requires a { IsPosition a.0 }
    requires b { IsPosition b.0 }
    ensures { result ≡ (if here then record { 0 = a.0 +ℤ b.0 } else no_length) }
{
    if here { sum_of(a, b) } else { Unit(0) }
}

/// How far the box at a place reaches above and below the baseline.
pub(crate) fn extent_at(measures: &BoxMeasures<'_>, k: usize) -> Extent
    ensures { result ≡ extent_at measures.now k }
{
    match measures.boxes().get(k) {
        Some(node) => extent_of(measures.face(), &node.style.text),
        None => Extent {
            above: Unit(0),
            below: Unit(0),
        },
    }
}

fn has_vertical_edges(sizes: &BoxSizes) -> bool
    ensures { result ≡ shows_vertical_edge sizes.now }
{
    is_nonzero(sizes.margin_top.0)
        || is_nonzero(sizes.edges.top.0)
        || is_nonzero(sizes.edges.bottom.0)
        || is_nonzero(sizes.margin_bottom.0)
}

fn has_left_edges(sizes: &BoxSizes) -> bool
    ensures { result ≡ shows_left_edge sizes.now }
{
    is_nonzero(sizes.widths.margin_left.0) || is_nonzero(sizes.edges.left.0)
}

fn has_right_edges(sizes: &BoxSizes) -> bool
    ensures { result ≡ shows_right_edge sizes.now }
{
    is_nonzero(sizes.edges.right.0) || is_nonzero(sizes.widths.margin_right.0)
}
