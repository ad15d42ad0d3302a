//! Static positions (CSS 2.2, 9.6): the lines that have anchors.

ghost use Rattle.std.specs.Prelude.{ℕ, ◌≡◌, ◌<◌, ◌==◌, true, false, IsFalse, take, drop, length, Some, None, IfOk, OnOk, if◌then◌else◌};
ghost use Rattle.lay_box_tree.specs.Roles.{role_at};
ghost use Rattle.lay_flow.specs.Blocks.Children.{flag_at};
ghost use Rattle.lay_box_tree.specs.Containing.{container_of};
ghost use Rattle.lay_line_items.specs.InlineSegments.{segments_in};
ghost use Rattle.lay_flow_boxes.specs.ContextBlocks.{is_anchor};
ghost use Rattle.lay_placement.specs.AnchorLines.{ArePut, is_anchor_kind, lacks_top, is_open_top, top_at};
ghost use Rattle.lay_placement.specs.AnchorLines.{top_in_line, top_in_segment, top_of_item};
ghost use Rattle.lay_placement.specs.ContextPlaces.{rows_at};
ghost use Rattle.lay_placement.specs.Counts.{HaveCounts};
ghost use Rattle.lay_placement.specs.StaticPositions.{anchor_line, line_top};

use crate::context_places::{BoxPlaces, rows_at};
use lay_box_tree::{BoxKind, BoxNode, ContextBoxes, inline_parts};
use lay_flow_boxes::{PlaceInput, is_anchor};
use lay_line_items::inline_segments;
use lay_lines::Ended;
use lay_space::{Item, Segment};
use lay_units::{NoMemory, Unit};
use std::alloc::Global;

/// For each anchor the top of the line that has it, and None where it is in no line; what it says of other boxes means nothing,
/// and where there is no anchor it is empty.
pub(crate) fn anchor_lines(
    alloc: Global,
    input: &PlaceInput,
    places: &BoxPlaces,
) -> Result<Vec<Option<Unit>>, NoMemory>
    requires { HaveCounts input.now.boxes places.now }
    ensures count { IfOk result
        (λ v. (k : ℕ) → k < length input.now.boxes → is_anchor (role_at input.now.boxes k) ≡ true → k < length v.items) }
    ensures each { IfOk result
        (λ v. (k : ℕ) → k < length input.now.boxes → is_anchor (role_at input.now.boxes k) ≡ true
        → top_at v.items k ≡ anchor_line input.now places.now k) }
{
    if !has_anchor(input.boxes()) {
        return Ok(Vec::new(alloc));
    }
    tops_of_lines(alloc, input, places)
}

/// The same, where there may be an anchor.
fn tops_of_lines(
    alloc: Global,
    input: &PlaceInput,
    places: &BoxPlaces,
) -> Result<Vec<Option<Unit>>, NoMemory>
    requires { HaveCounts input.now.boxes places.now }
    ensures count { IfOk result (λ v. length v.items ≡ length input.now.boxes) }
    ensures each { IfOk result
        (λ v. (k : ℕ) → k < length input.now.boxes → is_anchor (role_at input.now.boxes k) ≡ true
        → top_at v.items k ≡ anchor_line input.now places.now k) }
{
    let count = input.boxes().len();
    let holders = anchor_holders(alloc, input.context_boxes())?;
    let mut tops = vec![in alloc; None; count]?;
    for c in 0..count {
        if holders[c] {
            put_lines(alloc, &mut tops, input, places, c)?;
        }
    }
    Ok(tops)
}

/// Whether there may be an anchor among these boxes.
fn has_anchor(boxes: &[BoxNode]) -> bool
    ensures { IsFalse result → (k : ℕ) → k < length boxes.now → is_anchor (role_at boxes.now k) ≡ false }
{
    for k in 0..boxes.len() {
        if is_anchor_kind(&boxes[k].kind) {
            return true;
        }
    }
    false
}

fn is_anchor_kind(kind: &BoxKind) -> bool
    ensures { result ≡ is_anchor_kind kind.now }
{
    matches!(kind, BoxKind::Anchor)
}

/// Whether each box holds an anchor.
fn anchor_holders(alloc: Global, boxes: &ContextBoxes) -> Result<Vec<bool>, NoMemory>
    ensures count { IfOk result (λ v. length v.items ≡ length boxes.now) }
    ensures each { IfOk result
        (λ v. (k : ℕ) → k < length boxes.now → is_anchor (role_at boxes.now k) ≡ true → flag_at v.items (container_of boxes.now k) ≡ true) }
{
    let count = boxes.as_slice().len();
    let mut holders = vec![in alloc; false; count]?;
    for k in 0..count {
        if is_anchor(boxes.role(k)) {
            let container = boxes.container(k);
            holders[container] = true;
        }
    }
    Ok(holders)
}

/// Gives the anchors in the box at c the tops of their lines, if it has any.
fn put_lines(
    alloc: Global,
    tops: &mut [Option<Unit>],
    input: &PlaceInput,
    places: &BoxPlaces,
    c: usize,
) -> Result<(), NoMemory>
    requires counts { HaveCounts input.now.boxes places.now }
    requires place { c < length input.now.boxes }
    requires count { length tops.old ≡ length input.now.boxes }
    ensures { OnOk result
        (ArePut input.now.boxes c tops.old tops.new
        (line_top (rows_at places.now.places c) (segments_in input.now.face input.now.boxes c))) }
{
    let of = Holder {
        boxes: input.context_boxes(),
        container: c,
    };
    let rows = rows_at(&places.places, c);
    if rows.is_empty() {
        return Ok(());
    }
    if let Some(segments) = input.segments_at(c) {
        put_rows(tops, &of, rows, segments);
        return Ok(());
    }
    let parts = inline_parts(alloc, input.boxes())?;
    let segments = inline_segments(alloc, input.boxes(), &parts, c, input.face())?;
    put_rows(tops, &of, rows, segments.as_slice());
    Ok(())
}

/// A box that holds anchors, in its formatting context.
#[derive(Clone, Copy)]
struct Holder<'a> {
    boxes: &'a ContextBoxes,
    container: usize,
}

/// Gives the anchors in a box the tops of its lines, which take these segments.
fn put_rows(tops: &mut [Option<Unit>], of: &Holder<'_>, rows: &[Ended], segments: &[Segment])
    requires { length tops.old ≡ length of.now.boxes.now }
    ensures { ArePut of.now.boxes.now of.now.container tops.old tops.new (line_top rows.now segments.now) }
{
    let mut rest = segments;
    for r in 0..rows.len() {
        let row = &rows[r];
        put_line(tops, of, front(rest, row.reach.count), row.top);
        rest = back(rest, row.reach.count);
    }
}

/// Gives the anchors in these segments the top of their line.
fn put_line(tops: &mut [Option<Unit>], of: &Holder<'_>, segments: &[Segment], top: Unit)
    requires { length tops.old ≡ length of.now.boxes.now }
    ensures { ArePut of.now.boxes.now of.now.container tops.old tops.new (top_in_line segments.now top) }
{
    for s in 0..segments.len() {
        put_segment(tops, of, segments[s].items.as_slice(), top);
    }
}

/// Gives the anchors among these items the top of their line.
fn put_segment(tops: &mut [Option<Unit>], of: &Holder<'_>, items: &[Item], top: Unit)
    requires { length tops.old ≡ length of.now.boxes.now }
    ensures { ArePut of.now.boxes.now of.now.container tops.old tops.new (top_in_segment items.now top) }
{
    for k in 0..items.len() {
        put_item(tops, of, &items[k], top);
    }
}

/// Gives an anchor the top of its line, if this is one in the box that has none yet.
fn put_item(tops: &mut [Option<Unit>], of: &Holder<'_>, item: &Item, top: Unit)
    requires { length tops.old ≡ length of.now.boxes.now }
    ensures { ArePut of.now.boxes.now of.now.container tops.old tops.new (top_of_item item.now top) }
{
    if let Item::Anchor(k) = item {
        put_anchor(tops, of, *k as usize, top);
    }
}

/// Gives the anchor at k this top, if it is one in the box that has none yet.
fn put_anchor(tops: &mut [Option<Unit>], of: &Holder<'_>, k: usize, top: Unit)
    requires { length tops.old ≡ length of.now.boxes.now }
    ensures { ArePut of.now.boxes.now of.now.container tops.old tops.new (λ j. if k == j then Some top else None) }
{
    if is_open(tops, of, k) {
        tops[k] = Some(top);
    }
}

/// Whether the box at k is one in the holder and has no top yet.
fn is_open(tops: &[Option<Unit>], of: &Holder<'_>, k: usize) -> bool
    requires { length tops.now ≡ length of.now.boxes.now }
    ensures { result ≡ is_open_top of.now.boxes.now of.now.container tops.now k }
{
    k < tops.len() && is_free(tops, of, k)
}

fn is_free(tops: &[Option<Unit>], of: &Holder<'_>, k: usize) -> bool
    requires count { length tops.now ≡ length of.now.boxes.now }
    requires place { k < length tops.now }
    ensures { result ≡ lacks_top of.now.boxes.now of.now.container tops.now k }
{
    of.boxes.container(k) == of.container && tops[k].is_none()
}

/// The first so many of these, or all.
fn front(segments: &[Segment], count: usize) -> &[Segment]
    ensures { result.now ≡ take count segments.now }
{
    &segments[..count.min(segments.len())]
}

/// What is left after these.
fn back(segments: &[Segment], count: usize) -> &[Segment]
    ensures { result.now ≡ drop count segments.now }
{
    &segments[count.min(segments.len())..]
}
