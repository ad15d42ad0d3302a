//! The pieces of the boxes of one formatting context.

ghost use Rattle.std.specs.Prelude.{◌≡◌, ◌<◌, ◌≤◌, [], length, IfOk, OnOk};
ghost use Rattle.std.specs.List.{flat_map};
ghost use Rattle.lay_box_tree.specs.InlineParts.{id_at};
ghost use Rattle.lay_sizes.specs.BoxSizes.{border_width};
ghost use Rattle.lay_sizes.specs.SizeColumns.{sizes_at};
ghost use Rattle.lay_placements.specs.NearPieces.{AreNearPieces};
ghost use Rattle.lay_placements.specs.PieceParts.{with_pieces};
ghost use Rattle.lay_placements.specs.Standings.{IsStandingNear};
ghost use Rattle.lay_abspos.specs.Relative.MoveBounds.{IsMoveNear};
ghost use Rattle.lay_placement.specs.BoxStandings.{standing_of_box};
ghost use Rattle.lay_placement.specs.ContextPieces.{moved_rect, piece_as, piece_of_box, pieces_of_box};
ghost use Rattle.lay_placement.specs.ContextPieces.{pieces_on_line, pieces_to, spliced_at};
ghost use Rattle.lay_placement.specs.Paintings.{IsPainting};

use crate::context_places::{BoxPlaces, move_of};
use crate::on_lines::on_lines_at;
use lay_abspos::relative::Offset;
use lay_box_tree::BoxNode;
use lay_doc::NodeId;
use lay_flow_boxes::{PlaceInput, own_box_at};
use lay_frag::{Frag, FragKind};
use lay_inlines::{LinePiece, LinePieceKind, LinePieceList};
use lay_placements::{PieceList, Standing, near_position, sizes_at};
use lay_sizes::border_width;
use lay_units::{NoMemory, Rect, Unit, sum_of};
use std::alloc::Global;

/// What pieces are made of: what the placement is given, where its boxes stand, and what stands on the lines of each.
#[derive(Clone, Copy)]
pub(crate) struct Painting<'a> {
    pub input: &'a PlaceInput,
    pub places: &'a BoxPlaces,
    pub on_lines: &'a [LinePieceList],
    pub standings: &'a [Standing],
}

/// The pieces of the boxes of one formatting context in order, counted from the corner of its own border box. NoMemory is
/// also the answer where one stands more than 2^60 units away, which it does in no document within the limits, or where
/// there are more than 2^31.
pub(crate) fn pieces_of(alloc: Global, of: &Painting<'_>) -> Result<Vec<Frag>, NoMemory>
    requires { IsPainting of.now.input.now of.now.places.now of.now.on_lines.now of.now.standings.now }
    ensures pieces { IfOk result (λ v. v.items ≡ pieces_to of.now.input.now of.now.places.now (length of.now.input.now.boxes)) }
    ensures near { IfOk result (λ v. AreNearPieces v.items) }
    ensures few { IfOk result (λ v. length v.items ≤ 2147483648) }
{
    let mut pieces = no_pieces(alloc, of.input.boxes());
    for k in 0..of.input.boxes().len() {
        push_box(&mut pieces, of, k)?;
    }
    Ok(pieces.into_vec())
}

/// The ids of nodes lie so close together where there are at most so many for each box.
const CLOSE: usize = 4;

/// No piece of these boxes. Where the ids of their nodes lie close together, pieces are counted without a search.
fn no_pieces(alloc: Global, boxes: &[BoxNode]) -> PieceList
    ensures { result ≡ [] }
{
    let first = id_at(boxes, 0);
    let last = id_at(boxes, boxes.len().saturating_sub(1));
    let span = last.saturating_sub(first) as usize;
    if span > boxes.len().saturating_mul(CLOSE) {
        return PieceList::new(alloc);
    }
    PieceList::of_ids(alloc, first, span + 1)
}

/// Puts the pieces of the box at k behind these.
fn push_box(pieces: &mut PieceList, of: &Painting<'_>, k: usize) -> Result<(), NoMemory>
    requires painting { IsPainting of.now.input.now of.now.places.now of.now.on_lines.now of.now.standings.now }
    requires place { k < length of.now.input.now.boxes }
    ensures { OnOk result (pieces.new ≡ with_pieces pieces.old (pieces_of_box of.now.input.now of.now.places.now k)) }
{
    if of.input.role(k).is_inline_level() {
        return Ok(());
    }
    if of.input.context_boxes().is_inner(k) {
        return push_inner(pieces, of, k);
    }
    pieces.push(piece_of_box(of, k))?;
    push_lines(pieces, of, on_lines_at(of.on_lines, k))
}

/// Puts the pieces of the anonymous formatting context whose box is the one at k behind these, if it is that of one.
fn push_inner(pieces: &mut PieceList, of: &Painting<'_>, k: usize) -> Result<(), NoMemory>
    requires { IsPainting of.now.input.now of.now.places.now of.now.on_lines.now of.now.standings.now }
    ensures { OnOk result (pieces.new ≡ with_pieces pieces.old (spliced_at of.now.input.now of.now.places.now k)) }
{
    if k >= of.input.boxes().len() {
        return Ok(());
    }
    let width = own_box_at(of.input.inner(), k).width;
    pieces.push_spliced(width, standing_at(of, k), of.input.pieces().at(k))
}

/// Puts what is painted of these on lines behind these pieces.
fn push_lines(
    pieces: &mut PieceList,
    of: &Painting<'_>,
    on_lines: &[LinePiece],
) -> Result<(), NoMemory>
    requires { IsPainting of.now.input.now of.now.places.now of.now.on_lines.now of.now.standings.now }
    ensures { OnOk result
        (pieces.new ≡ with_pieces pieces.old (flat_map (pieces_on_line of.now.input.now of.now.places.now) on_lines.now)) }
{
    for k in 0..on_lines.len() {
        push_line_piece(pieces, of, on_lines[k])?;
    }
    Ok(())
}

/// Puts what is painted of this one on a line behind these pieces.
fn push_line_piece(
    pieces: &mut PieceList,
    of: &Painting<'_>,
    piece: LinePiece,
) -> Result<(), NoMemory>
    requires { IsPainting of.now.input.now of.now.places.now of.now.on_lines.now of.now.standings.now }
    ensures { OnOk result (pieces.new ≡ with_pieces pieces.old (pieces_on_line of.now.input.now of.now.places.now piece)) }
{
    match piece.kind {
        LinePieceKind::Line => pieces.push(piece_as(of, piece, FragKind::Line)?),
        LinePieceKind::Inline => pieces.push(piece_as(of, piece, FragKind::Box)?),
        LinePieceKind::Text => pieces.push(piece_as(of, piece, FragKind::Text)?),
        LinePieceKind::Atomic => push_inner(pieces, of, piece.node as usize),
    }
}

/// A piece on a line that is painted as this, moved with its box. NoMemory is the answer where it stands more than 2^60 units
/// away.
fn piece_as(of: &Painting<'_>, piece: LinePiece, kind: FragKind) -> Result<Frag, NoMemory>
    requires { IsPainting of.now.input.now of.now.places.now of.now.on_lines.now of.now.standings.now }
    ensures { IfOk result (λ f. f ≡ piece_as of.now.input.now of.now.places.now piece kind) }
{
    let k = piece.node as usize;
    Ok(Frag {
        kind,
        node: NodeId(id_at(of.input.boxes(), k)),
        part: 0,
        rect: moved_rect(move_of(of.places, k), piece.rect)?,
    })
}

/// A rectangle that is moved so far. NoMemory is the answer where it was more than 2^60 units away.
fn moved_rect(by: Offset, rect: Rect) -> Result<Rect, NoMemory>
    requires { IsMoveNear by }
    ensures { IfOk result (λ r. r ≡ moved_rect by rect) }
{
    let x = near_position(rect.x)?;
    let y = near_position(rect.y)?;
    Ok(Rect {
        x: sum_of(by.right, x),
        y: sum_of(by.down, y),
        ..rect
    })
}

/// The id of the node of the box at k.
fn id_at(boxes: &[BoxNode], k: usize) -> u32
    ensures { result ≡ id_at boxes.now k }
{
    match boxes.get(k) {
        Some(node) => node.node.0,
        None => 0,
    }
}

/// The border box of the box at k.
fn piece_of_box(of: &Painting<'_>, k: usize) -> Frag
    requires painting { IsPainting of.now.input.now of.now.places.now of.now.on_lines.now of.now.standings.now }
    requires place { k < length of.now.input.now.boxes }
    ensures { result ≡ piece_of_box of.now.input.now of.now.places.now k }
{
    let standing = standing_at(of, k);
    Frag {
        kind: FragKind::Box,
        node: NodeId(id_at(of.input.boxes(), k)),
        part: 0,
        rect: Rect {
            x: standing.corner.x,
            y: standing.corner.y,
            w: border_width_at(of.input, k),
            h: standing.height,
        },
    }
}

/// Where the box at k stands.
fn standing_at(of: &Painting<'_>, k: usize) -> Standing
    requires painting { IsPainting of.now.input.now of.now.places.now of.now.on_lines.now of.now.standings.now }
    requires place { k < length of.now.input.now.boxes }
    ensures standing { result ≡ standing_of_box of.now.input.now of.now.places.now k }
    ensures near { IsStandingNear result }
{
    let _ = of.places;
    of.standings[k]
}

/// The width of the border box of the box at k.
fn border_width_at(input: &PlaceInput, k: usize) -> Unit
    requires { k < length input.now.boxes }
    ensures { result ≡ record { 0 = border_width (sizes_at input.now.sizes k) } }
{
    let _ = input.boxes();
    border_width(&sizes_at(input.sizes(), k))
}
