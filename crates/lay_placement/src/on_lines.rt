//! What stands on the lines of the boxes of one formatting context.

ghost use Rattle.std.specs.Prelude.{ℕ, ◌≡◌, ◌<◌, ◌≤◌, All, IsFalse, false, length, IfOk};
ghost use Rattle.lay_line_measures.specs.InlineBoxes.{inline_areas};
ghost use Rattle.lay_flow.specs.Blocks.Boxes.{box_at};
ghost use Rattle.lay_flow.specs.Blocks.FlowBoxes.{KindFits};
ghost use Rattle.lay_flow_boxes.specs.FlowShapes.{most_flow_boxes};
ghost use Rattle.lay_inlines.specs.Bounds.{AreaWithin, RowWithin};
ghost use Rattle.lay_placement.specs.ContextPlaces.{measures_of, rows_at};
ghost use Rattle.lay_placement.specs.Counts.{HaveCounts};
ghost use Rattle.lay_placement.specs.OnLines.{AreOnLines, used_text_align, holds_lines, block_line_container, on_lines_at, on_lines_of};

use crate::context_places::{BoxPlaces, rows_at};
use lay_flow::blocks::{BlockBox, FlowBox, FlowBoxes, FlowKind};
use lay_flow_boxes::PlaceInput;
use lay_inlines::{Align, Container, LinePiece, LinePieceList, LinesGeometry, line_pieces};
use lay_line_measures::{BoxMeasures, inline_areas};
use lay_lines::Ended;
use lay_lines::content::InlineArea;
use lay_style::TextAlign;
use lay_units::NoMemory;
use std::alloc::Global;

/// What stands on the lines of each box of a context, in the order of the boxes. Nothing is kept where no box holds lines.
pub(crate) fn on_lines_of(
    alloc: Global,
    input: &PlaceInput,
    places: &BoxPlaces,
) -> Result<Vec<LinePieceList>, NoMemory>
    requires counts { HaveCounts input.now.boxes places.now }
    ensures { IfOk result (λ v. AreOnLines input.now places.now v.items) }
{
    if !has_lines(places.shape.flow_boxes().as_slice()) {
        return Ok(Vec::new(alloc));
    }
    on_lines_of_each(alloc, input, places)
}

/// Whether one of these boxes holds lines.
fn has_lines(flow_boxes: &[FlowBox]) -> bool
    ensures { IsFalse result → (k : ℕ) → k < length flow_boxes.now → holds_lines (box_at flow_boxes.now k).kind ≡ false }
{
    for k in 0..flow_boxes.len() {
        if holds_lines(kind_in(flow_boxes, k)) {
            return true;
        }
    }
    false
}

fn holds_lines(kind: &FlowKind) -> bool
    ensures { result ≡ holds_lines kind.now }
{
    matches!(kind, FlowKind::Lines(_))
}

/// The same, where a box may hold lines: what stands on those of each.
fn on_lines_of_each(
    alloc: Global,
    input: &PlaceInput,
    places: &BoxPlaces,
) -> Result<Vec<LinePieceList>, NoMemory>
    requires counts { HaveCounts input.now.boxes places.now }
    ensures { IfOk result (λ v. AreOnLines input.now places.now v.items) }
{
    let areas = areas_of(alloc, input, places)?;
    let count = input.boxes().len();
    let mut all = Vec::with_capacity(alloc, count)?;
    for k in 0..count {
        let pieces = pieces_on_lines(alloc, input, places, &areas, k)?;
        all.push(pieces)?;
    }
    Ok(all)
}

/// What stands on the lines of the box at k, where this is kept of all.
pub(crate) fn on_lines_at(on_lines: &[LinePieceList], k: usize) -> &[LinePiece]
    ensures { result.now ≡ on_lines_at on_lines.now k }
{
    match on_lines.get(k) {
        Some(pieces) => pieces.as_slice(),
        None => &[],
    }
}

/// What is painted of each box on its lines.
#[tactic(auto, using(crate::proofs::AreaFacts::areas_within))]
fn areas_of(
    alloc: Global,
    input: &PlaceInput,
    places: &BoxPlaces,
) -> Result<Vec<InlineArea>, NoMemory>
    ensures areas { IfOk result (λ v. v.items ≡ inline_areas (measures_of input.now places.now)) }
    ensures within { IfOk result (λ v. All AreaWithin v.items) }
{
    let measures = BoxMeasures::new(
        input.boxes(),
        places.shape.parts(),
        input.sizes(),
        input.inner(),
        input.face(),
    );
    inline_areas(alloc, &measures)
}

/// What stands on the lines of the box at k.
fn pieces_on_lines(
    alloc: Global,
    input: &PlaceInput,
    places: &BoxPlaces,
    areas: &[InlineArea],
    k: usize,
) -> Result<LinePieceList, NoMemory>
    requires place { k < length input.now.boxes }
    requires counts { HaveCounts input.now.boxes places.now }
    requires areas { areas.now ≡ inline_areas (measures_of input.now places.now) }
    requires within { All AreaWithin areas.now }
    ensures { IfOk result (λ l. l ≡ on_lines_of input.now places.now k) }
{
    match kind_at(places.shape.flow_boxes(), k) {
        FlowKind::Lines(lines) => {
            let geometry = LinesGeometry {
                container: line_container(input, k, &lines.block),
                content: &lines.content,
                rows: rows_within(places, k),
                areas,
            };
            line_pieces(alloc, &geometry)
        }
        FlowKind::Block(_)
        | FlowKind::Solid(_)
        | FlowKind::Float(_)
        | FlowKind::LineFloat(_)
        | FlowKind::Inline => Ok(LinePieceList::new(Vec::new(alloc))),
    }
}

/// What the box at k is to its flow.
fn kind_at(flow_boxes: &FlowBoxes, k: usize) -> &FlowKind
    requires { k < length flow_boxes.now }
    ensures kind { result.now ≡ (box_at flow_boxes.now k).kind }
    ensures fits { KindFits (box_at flow_boxes.now k).kind }
{
    kind_in(flow_boxes.as_slice(), k)
}

fn kind_in(flow_boxes: &[FlowBox], k: usize) -> &FlowKind
    requires { k < length flow_boxes.now }
    ensures { result.now ≡ (box_at flow_boxes.now k).kind }
{
    &flow_boxes[k].kind
}

/// The lines of the box at k, which are within the bounds of what stands on them.
#[tactic(auto, using(crate::proofs::RowFacts::rows_within))]
fn rows_within(places: &BoxPlaces, k: usize) -> &[Ended]
    ensures rows { result.now ≡ rows_at places.now.places k }
    ensures within { All RowWithin result.now }
{
    let _ = places.places.lines();
    rows_at(&places.places, k)
}

/// The block box at k, as its lines take it.
fn line_container(input: &PlaceInput, k: usize, block: &BlockBox) -> Container
    requires place { k < length input.now.boxes }
    requires few { k ≤ most_flow_boxes }
    ensures { result ≡ block_line_container input.now.boxes k block.now }
{
    Container {
        node: k as u32,
        left: block.content.left,
        right: block.content.right,
        align: align_of(input.context_boxes().style(k).text.text_align),
    }
}

/// The used value of `text-align`. Lines aren't justified.
fn align_of(align: TextAlign) -> Align
    ensures { result ≡ used_text_align align }
{
    match align {
        TextAlign::Left | TextAlign::Justify => Align::Left,
        TextAlign::Right => Align::Right,
        TextAlign::Center => Align::Center,
    }
}
