//! What stands in lines, by its widths.

ghost use Rattle.std.specs.Prelude.{◌≡◌, ◌++◌, ◌∷◌, [], slice_get, OnOk, IfOk};
ghost use Rattle.lay_measure.specs.LineParts.{cluster_part, end_in, end_of, has_bottom_edges, has_left_edges, has_right_edges};
ghost use Rattle.lay_measure.specs.LineParts.{has_top_edges, has_vertical_edges, line_parts, part_between};
ghost use Rattle.lay_measure.specs.LineParts.{line_parts_of_item, parts_of, start_in, start_of, text_parts};

use crate::contributions::{
    contribution_at, left_edges, margin_or_zero, right_edges, size_or_zero,
};
use crate::measure_in::MeasureIn;
use crate::preferred_widths::PreferredWidths;
use lay_box_tree::InlinePart;
use lay_space::{ClusterKind, Item, Mode, Segment, cluster_kind, next_place};
use lay_style::{Style, size_of};
use lay_units::{ClusterWidth, NoMemory, Unit, is_nonzero};
use std::alloc::Global;

/// Something in a line, in 1/64 px.
#[derive(Clone, Copy)]
pub enum LinePart {
    /// A collapsible space.
    Space(Unit),
    /// A preserved space, which doesn't count at the end of a line.
    HangingSpace(Unit),
    /// A preserved tab, which reaches to the next tab stop.
    Tab,
    /// A preserved linefeed.
    Linefeed,
    /// Any other grapheme cluster.
    Cluster(Unit),
    /// The edges of an inline box where it starts or ends, and whether they make its line seen.
    Edge(Unit, bool),
    /// What an atomic box takes.
    Atomic(PreferredWidths),
    /// What a float takes.
    Float(PreferredWidths),
    /// A place where a line may break, or has to.
    Break(bool),
}

/// The content of a container with these segments, with the breaks between them.
pub(crate) fn line_parts(
    alloc: Global,
    of: &MeasureIn<'_>,
    segments: &[Segment],
) -> Result<Vec<LinePart>, NoMemory>
    ensures { IfOk result (λ v. v.items ≡ line_parts of.now segments.now) }
{
    let mut parts = Vec::new(alloc);
    for k in 0..segments.len() {
        put_items(&mut parts, of, segments[k].items.as_slice())?;
        push_part(&mut parts, LinePart::Break(segments[k].forced))?;
    }
    Ok(parts)
}

fn put_items(parts: &mut Vec<LinePart>, of: &MeasureIn<'_>, items: &[Item]) -> Result<(), NoMemory>
    ensures { OnOk result (parts.new.items ≡ parts.old.items ++ parts_of of.now items.now) }
{
    for k in 0..items.len() {
        put_item(parts, of, &items[k])?;
    }
    Ok(())
}

/// Puts what an item is in a line. What is absolutely positioned isn't in it.
fn put_item(parts: &mut Vec<LinePart>, of: &MeasureIn<'_>, item: &Item) -> Result<(), NoMemory>
    ensures { OnOk result (parts.new.items ≡ parts.old.items ++ line_parts_of_item of.now item.now) }
{
    match item {
        Item::Text {
            text,
            mode,
            widths,
            ..
        } => put_text(parts, *mode, text.as_str().as_bytes(), widths.as_slice()),
        Item::Start(place, _) => push_part(parts, start_at(of, *place)?),
        Item::End(place) => push_part(parts, end_at(of, *place)?),
        Item::Atomic(place, _) => push_part(parts, LinePart::Atomic(contribution_at(of, *place)?)),
        Item::Float(place) => push_part(parts, LinePart::Float(contribution_at(of, *place)?)),
        Item::Anchor(_) => Ok(()),
    }
}

/// Puts the clusters of a text.
fn put_text(
    parts: &mut Vec<LinePart>,
    mode: Mode,
    text: &[u8],
    widths: &[ClusterWidth],
) -> Result<(), NoMemory>
    ensures { OnOk result (parts.new.items ≡ parts.old.items ++ text_parts mode text.now widths.now) }
{
    for k in 0..widths.len() {
        let to = next_place(text, &widths[k + 1..]);
        push_part(parts, part_between(mode, text, widths[k], to))?;
    }
    Ok(())
}

/// The cluster that ends before a place.
fn part_between(mode: Mode, text: &[u8], width: ClusterWidth, to: usize) -> LinePart
    ensures { result ≡ part_between mode text.now width to }
{
    let kind = cluster_kind(mode, text, width.place, to);
    let lone = to > width.place && to - width.place == 1;
    cluster_part(mode, kind, lone, width.width)
}

fn cluster_part(mode: Mode, kind: ClusterKind, lone: bool, width: Unit) -> LinePart
    ensures { result ≡ cluster_part mode kind lone width }
{
    match kind {
        ClusterKind::CollapsibleSpace => LinePart::Space(width),
        ClusterKind::PreservedSpace if mode.wraps() => LinePart::HangingSpace(width),
        ClusterKind::Linefeed if lone => LinePart::Linefeed,
        ClusterKind::Tab => LinePart::Tab,
        ClusterKind::PreservedSpace
        | ClusterKind::Linefeed
        | ClusterKind::ZeroWidthSpace
        | ClusterKind::Other => LinePart::Cluster(width),
    }
}

/// The start of the inline box at a place.
fn start_at(of: &MeasureIn<'_>, place: u32) -> Result<LinePart, NoMemory>
    ensures { IfOk result (λ p. p ≡ start_in of.now place (slice_get of.now.boxes place)) }
{
    let k = place as usize;
    match of.boxes().get(k) {
        Some(node) => start_of(&node.style, of.part_at(k)),
        None => Ok(LinePart::Edge(Unit(0), false)),
    }
}

fn start_of(style: &Style, part: InlinePart) -> Result<LinePart, NoMemory>
    ensures { IfOk result (λ p. p ≡ start_of style.now part) }
{
    let seen = has_vertical_edges(style) || (part.first && has_left_edges(style));
    if !part.first {
        return Ok(LinePart::Edge(Unit(0), seen));
    }
    Ok(LinePart::Edge(left_edges(style)?, seen))
}

/// The end of the inline box at a place.
fn end_at(of: &MeasureIn<'_>, place: u32) -> Result<LinePart, NoMemory>
    ensures { IfOk result (λ p. p ≡ end_in of.now place (slice_get of.now.boxes place)) }
{
    let k = place as usize;
    match of.boxes().get(k) {
        Some(node) => end_of(&node.style, of.part_at(k)),
        None => Ok(LinePart::Edge(Unit(0), false)),
    }
}

fn end_of(style: &Style, part: InlinePart) -> Result<LinePart, NoMemory>
    ensures { IfOk result (λ p. p ≡ end_of style.now part) }
{
    let seen = has_vertical_edges(style) || (part.last && has_right_edges(style));
    if !part.last {
        return Ok(LinePart::Edge(Unit(0), seen));
    }
    Ok(LinePart::Edge(right_edges(style)?, seen))
}

/// Whether a margin, a border or a padding above or below isn't 0.
fn has_vertical_edges(style: &Style) -> bool
    ensures { result ≡ has_vertical_edges style.now }
{
    has_top_edges(style) || has_bottom_edges(style)
}

fn has_top_edges(style: &Style) -> bool
    ensures { result ≡ has_top_edges style.now }
{
    is_nonzero(margin_or_zero(style.margin.top).0)
        || is_nonzero(size_of(style.border.width.top).0)
        || is_nonzero(size_or_zero(style.padding.top).0)
}

fn has_bottom_edges(style: &Style) -> bool
    ensures { result ≡ has_bottom_edges style.now }
{
    is_nonzero(margin_or_zero(style.margin.bottom).0)
        || is_nonzero(size_of(style.border.width.bottom).0)
        || is_nonzero(size_or_zero(style.padding.bottom).0)
}

fn has_left_edges(style: &Style) -> bool
    ensures { result ≡ has_left_edges style.now }
{
    is_nonzero(margin_or_zero(style.margin.left).0)
        || is_nonzero(size_of(style.border.width.left).0)
        || is_nonzero(size_or_zero(style.padding.left).0)
}

fn has_right_edges(style: &Style) -> bool
    ensures { result ≡ has_right_edges style.now }
{
    is_nonzero(margin_or_zero(style.margin.right).0)
        || is_nonzero(size_of(style.border.width.right).0)
        || is_nonzero(size_or_zero(style.padding.right).0)
}

fn push_part(parts: &mut Vec<LinePart>, part: LinePart) -> Result<(), NoMemory>
    ensures { OnOk result (parts.new.items ≡ parts.old.items ++ part ∷ []) }
{
    parts.push(part)?;
    Ok(())
}
