//! Of each node the last of its own pieces that holds the point.

ghost use Rattle.std.specs.Prelude.{◌≡◌, ◌<◌, ◌++◌, ◌∷◌, [], List, Some, None, true, length, slice_index_or, slice_set, IfOk, IfSome, OnOk};
ghost use Rattle.lay_hit.specs.Fronts.{later_piece};
ghost use Rattle.lay_doc.specs.Document.{IsDocument};
ghost use Rattle.lay_frag.specs.declared.frag.Frag.{Frag};
ghost use Rattle.lay_frag.specs.Pieces.{IsContextInRange, frags_of, page_pieces};
ghost use Rattle.lay_hit.specs.Hits.{holds};
ghost use Rattle.lay_hit.specs.PaintKinds.{is_inline_paint};
ghost use Rattle.lay_hit.specs.Questions.{AreNoted, is_painted, node_of_piece};

use crate::kinds::{PaintKind, kind_at};
use crate::node_pieces::NodePieces;
use crate::point::{holds_at, moved_pieces};
use crate::question::Question;
use lay_frag::{Frag, FragKind, Placed};
use lay_units::NoMemory;
use std::alloc::Global;

/// Of each node the last of its own pieces that holds the point.
pub(crate) fn noted(alloc: Global, q: &Question<'_>) -> Result<NodePieces, NoMemory>
    requires { length q.now.styles.now ≡ length q.now.doc.now.nodes }
    ensures { IfOk result (λ v. AreNoted q.now (frags_of q.now.tree.now) v) }
{
    let mut noted = NodePieces::new(alloc, q.doc.len())?;
    for placed in q.tree.contexts() {
        note_context(q, placed, &mut noted)?;
    }
    Ok(noted)
}

/// Notes those of a context's pieces that hold the point.
#[inline(never)]
fn note_context(q: &Question<'_>, placed: &Placed, noted: &mut NodePieces) -> Result<(), NoMemory>
    requires styles { length q.now.styles.now ≡ length q.now.doc.now.nodes }
    requires range { IsContextInRange placed.now }
    requires count { length noted.old ≡ length q.now.doc.now.nodes }
    ensures noted { OnOk result ((fs : List Frag) → AreNoted q.now fs noted.old → AreNoted q.now (fs ++ page_pieces placed.now) noted.new) }
    ensures count { length noted.new ≡ length q.now.doc.now.nodes }
{
    let moved = moved_pieces(placed);
    for k in 0..placed.pieces().len() {
        if holds_at(placed, moved, k, q.at) {
            note(q, placed.page_piece(k), noted)?;
        }
    }
    Ok(())
}

/// Notes a piece that holds the point.
#[inline(never)]
fn note(q: &Question<'_>, frag: Frag, noted: &mut NodePieces) -> Result<(), NoMemory>
    requires styles { length q.now.styles.now ≡ length q.now.doc.now.nodes }
    requires holds { holds q.now.at.x.0 q.now.at.y.0 frag ≡ true }
    requires count { length noted.old ≡ length q.now.doc.now.nodes }
    ensures count { length noted.new ≡ length q.now.doc.now.nodes }
    ensures noted { OnOk result ((fs : List Frag) → AreNoted q.now fs noted.old → AreNoted q.now (fs ++ frag ∷ []) noted.new) }
{
    let Some(place) = node_of_piece(q, &frag) else {
        return Ok(());
    };
    note_at(noted, place, frag)?;
    Ok(())
}

/// The place of the node with which a piece is painted, if it is painted.
fn node_of_piece(q: &Question<'_>, frag: &Frag) -> Option<usize>
    requires { length q.now.styles.now ≡ length q.now.doc.now.nodes }
    ensures node { result ≡ node_of_piece q.now frag.now }
    ensures within { IfSome result (λ k. k < length q.now.doc.now.nodes) }
    ensures valid { IsDocument q.now.doc.now }
{
    let nodes = q.doc.nodes();
    let place = q.doc.find(frag.node)?;
    if is_painted(frag.kind, kind_at(nodes, q.styles, place)) {
        Some(place)
    } else {
        None
    }
}

/// Whether pieces of this kind are painted with nodes of this one.
fn is_painted(piece: FragKind, node: PaintKind) -> bool
    ensures { result ≡ is_painted piece node }
{
    match piece {
        FragKind::Box => true,
        FragKind::Line => false,
        FragKind::Text => node.is_inline(),
    }
}

/// Puts a piece in the place of one that has no greater part.
fn note_at(noted: &mut NodePieces, place: usize, frag: Frag) -> Result<(), NoMemory>
    requires { place < length noted.old }
    ensures noted { OnOk result (noted.new ≡ slice_set noted.old place (Some (later_piece (slice_index_or noted.old place None) frag))) }
    ensures count { length noted.new ≡ length noted.old }
{
    match noted.get(place) {
        Some(other) if frag.part < other.part => Ok(()),
        _ => noted.set(place, frag),
    }
}
