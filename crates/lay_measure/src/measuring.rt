//! The preferred widths of a context.

ghost use Rattle.std.specs.Prelude.{ℕ, List, ◌≡◌, ◌≢◌, ◌<◌, ◌≤◌, ◌+◌, drop, length, slice_get, Some, IfOk, OnOk};
ghost use Rattle.lay_doc.specs.Tree.{IsTree};
ghost use Rattle.lay_box_tree.specs.BoxColumns.{box_parents};
ghost use Rattle.lay_box_tree.specs.Containers.{box_parent};
ghost use Rattle.lay_box_tree.specs.Roles.{role_of};
ghost use Rattle.lay_line_items.specs.InlineSegments.{segments_in};
ghost use Rattle.lay_measure.specs.Children.{Child};
ghost use Rattle.lay_measure.specs.ChildTotals.{totals_of};
ghost use Rattle.lay_measure.specs.LineParts.{contribution};
ghost use Rattle.lay_measure.specs.LineWidths.{inline_widths};
ghost use Rattle.lay_measure.specs.ReplacedWidths.{replaced_width};
ghost use Rattle.lay_measure.specs.PreferredWidths.{children, block_content_widths, lines_widths};
ghost use Rattle.lay_measure.specs.PreferredWidths.{own_preferred_widths, preferred_as, preferred_of};

use crate::children::{ChildTotals, NO_CHILDREN};
use crate::contributions::contribution;
use crate::inline_widths::inline_widths;
use crate::measure_in::MeasureIn;
use crate::preferred_widths::{NO_WIDTHS, PreferredWidths};
use crate::replaced_widths::replaced_width;
use lay_box_tree::{BoxKind, BoxNode, Role};
use lay_line_items::inline_segments;
use lay_style::{Style, TextStyle};
use lay_units::{NoMemory, Unit};
use std::alloc::Global;

/// The preferred minimum width and the preferred width of a context's own box (CSS 2.2, 10.3.5), in 1/64 px and from
/// 0; zeros where there is no box. A width that isn't within 2^63 units of 0 is want of memory; no document has one.
pub fn measure(alloc: Global, of: &MeasureIn<'_>) -> Result<PreferredWidths, NoMemory>
    requires tree { IsTree (box_parents of.now.boxes) }
    requires few { length of.now.boxes ≤ 4294967295 }
    ensures { IfOk result (λ w. w ≡ preferred_of of.now) }
{
    match of.boxes().get(0) {
        Some(node) => own_box_widths(alloc, of, node),
        None => Ok(NO_WIDTHS),
    }
}

/// The same where this is the context's own box.
fn own_box_widths(
    alloc: Global,
    of: &MeasureIn<'_>,
    node: &BoxNode,
) -> Result<PreferredWidths, NoMemory>
    requires tree { IsTree (box_parents of.now.boxes) }
    requires few { length of.now.boxes ≤ 4294967295 }
    requires some { 0 < length of.now.boxes }
    ensures { IfOk result (λ w. w ≡ preferred_as of.now node.now.kind node.now.style) }
{
    match &node.kind {
        BoxKind::Replaced { w, h, .. } => Ok(replaced_widths(*w, *h, &node.style)),
        _ => tree_widths(alloc, of),
    }
}

fn replaced_widths(w: Unit, h: Unit, style: &Style) -> PreferredWidths
    ensures { result
        ≡ record { minimum = record { 0 = replaced_width w h style.now }; preferred = record { 0 = replaced_width w h style.now } } }
{
    let width = replaced_width(w, h, style);
    PreferredWidths {
        minimum: width,
        preferred: width,
    }
}

/// The preferred widths of the content of the context's own box. The boxes are taken from the last to the first, so
/// that the children of each are known before it.
fn tree_widths(alloc: Global, of: &MeasureIn<'_>) -> Result<PreferredWidths, NoMemory>
    requires tree { IsTree (box_parents of.now.boxes) }
    requires few { length of.now.boxes ≤ 4294967295 }
    requires some { 0 < length of.now.boxes }
    ensures { IfOk result (λ w. w ≡ block_content_widths of.now 0 (children of.now 0 1 (drop 1 of.now.boxes))) }
{
    let count = of.boxes().len();
    let mut totals = Vec::from_elem(alloc, NO_CHILDREN, count)?;
    for done in 0..count - 1 {
        put_child(alloc, of, totals.as_mut_slice(), count - 1 - done)?;
    }
    let widths = content_widths(alloc, of, 0, totals_at(totals.as_slice(), 0))?;
    Ok(widths)
}

/// Puts the box at k among the children of its parent, where those of the boxes from k + 1 on are there.
fn put_child(
    alloc: Global,
    of: &MeasureIn<'_>,
    totals: &mut [ChildTotals],
    k: usize,
) -> Result<(), NoMemory>
    requires tree { IsTree (box_parents of.now.boxes) }
    requires few { length of.now.boxes ≤ 4294967295 }
    requires count { length totals.old ≡ length of.now.boxes }
    requires inside { k < length of.now.boxes }
    requires later { 0 < k }
    requires known { (p : ℕ) → p ≤ k → slice_get totals.old p ≡ Some (totals_of (children of.now p (k + 1) (drop (k + 1) of.now.boxes))) }
    ensures count { OnOk result (length totals.new ≡ length of.now.boxes) }
    ensures known { OnOk result ((p : ℕ) → p < k → slice_get totals.new p ≡ Some (totals_of (children of.now p k (drop k of.now.boxes)))) }
{
    let boxes = of.boxes();
    let node = &boxes[k];
    let parent = parent_of(boxes, k);
    let inside = totals_at(totals, k);
    let behind = totals_at(totals, parent);
    let widths = child_widths(alloc, of, k, node, inside)?;
    let with_child = behind.behind(node.role(), widths)?;
    put_totals(totals, parent, with_child);
    Ok(())
}

/// The place of the parent of a box that isn't the context's own.
fn parent_of(boxes: &[BoxNode], k: usize) -> usize
    requires tree { IsTree (box_parents boxes.now) }
    requires inside { k < length boxes.now }
    requires later { 0 < k }
    ensures before { result < k }
    ensures parent { result ≡ box_parent boxes.now k }
{
    boxes[k].parent as usize
}

fn totals_at(totals: &[ChildTotals], p: usize) -> ChildTotals
    requires { p < length totals.now }
    ensures { slice_get totals.now p ≡ Some result }
{
    totals[p]
}

fn put_totals(totals: &mut [ChildTotals], p: usize, at_p: ChildTotals)
    requires { p < length totals.old }
    ensures count { length totals.new ≡ length totals.old }
    ensures here { slice_get totals.new p ≡ Some at_p }
    ensures others { (q : ℕ) → q ≢ p → slice_get totals.new q ≡ slice_get totals.old q }
{
    totals[p] = at_p;
}

/// What the box at k, which has these children, gives to the preferred widths of its parent.
fn child_widths(
    alloc: Global,
    of: &MeasureIn<'_>,
    k: usize,
    node: &BoxNode,
    inside: ChildTotals,
) -> Result<PreferredWidths, NoMemory>
    requires tree { IsTree (box_parents of.now.boxes) }
    requires few { length of.now.boxes ≤ 4294967295 }
    requires inside { k < length of.now.boxes }
    ensures { IfOk result
        (λ w. (cs : List Child) → inside ≡ totals_of cs → w ≡ contribution node.now (own_preferred_widths of.now k (role_of node.now) cs)) }
{
    let own = own_widths(alloc, of, k, node.role(), inside)?;
    contribution(node, own)
}

/// The preferred widths of the box at k, which has this role and these children.
fn own_widths(
    alloc: Global,
    of: &MeasureIn<'_>,
    k: usize,
    role: Role,
    totals: ChildTotals,
) -> Result<PreferredWidths, NoMemory>
    requires tree { IsTree (box_parents of.now.boxes) }
    requires few { length of.now.boxes ≤ 4294967295 }
    requires inside { k < length of.now.boxes }
    ensures { IfOk result (λ w. (cs : List Child) → totals ≡ totals_of cs → w ≡ own_preferred_widths of.now k role cs) }
{
    match role {
        Role::Block => content_widths(alloc, of, k, totals),
        _ => Ok(of.inner_at(k)),
    }
}

/// The preferred widths of the content of the block box at k, which has these children.
fn content_widths(
    alloc: Global,
    of: &MeasureIn<'_>,
    k: usize,
    totals: ChildTotals,
) -> Result<PreferredWidths, NoMemory>
    requires tree { IsTree (box_parents of.now.boxes) }
    requires few { length of.now.boxes ≤ 4294967295 }
    requires inside { k < length of.now.boxes }
    ensures { IfOk result (λ w. (cs : List Child) → totals ≡ totals_of cs → w ≡ block_content_widths of.now k cs) }
{
    if !totals.lines {
        return Ok(totals.widths());
    }
    lines_widths(alloc, of, k)
}

/// The preferred widths of the lines of the box at k.
fn lines_widths(alloc: Global, of: &MeasureIn<'_>, k: usize) -> Result<PreferredWidths, NoMemory>
    requires tree { IsTree (box_parents of.now.boxes) }
    requires few { length of.now.boxes ≤ 4294967295 }
    requires inside { k < length of.now.boxes }
    ensures { IfOk result (λ w. w ≡ lines_widths of.now k (slice_get of.now.boxes k)) }
{
    match of.boxes().get(k) {
        Some(node) => styled_widths(alloc, of, k, &node.style.text),
        None => Ok(NO_WIDTHS),
    }
}

/// The same where the box has this style.
fn styled_widths(
    alloc: Global,
    of: &MeasureIn<'_>,
    k: usize,
    style: &TextStyle,
) -> Result<PreferredWidths, NoMemory>
    requires tree { IsTree (box_parents of.now.boxes) }
    requires few { length of.now.boxes ≤ 4294967295 }
    requires inside { k < length of.now.boxes }
    ensures { IfOk result (λ w. w ≡ inline_widths of.now style.now (segments_in of.now.face of.now.boxes k)) }
{
    if let Some(segments) = of.segments_at(k) {
        return inline_widths(alloc, of, style, segments);
    }
    let segments = inline_segments(alloc, of.boxes(), of.parts(), k, of.face())?;
    inline_widths(alloc, of, style, segments.as_slice())
}
