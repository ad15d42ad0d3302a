//! Of each node the frontmost of the nodes that it paints in which a piece holds the point.

ghost use Rattle.std.specs.Prelude.{◌≡◌, ◌<◌, ◌+◌, ◌==◌, ◌||◌, not, None, is_some, length, slice_index_or, IfOk};
ghost use Rattle.lay_doc.specs.Document.{IsDocument};
ghost use Rattle.lay_frag.specs.Pieces.{frags_of};
ghost use Rattle.lay_hit.specs.Questions.{AreNoted, page};
ghost use Rattle.lay_hit.specs.Fronts.{front_from, front_in};
ghost use Rattle.lay_hit.specs.Waiting.{AreWaiting, nobody, passed_on};

use crate::kinds::{PaintKind, kind_at};
use crate::node_pieces::NodePieces;
use crate::question::Question;
use crate::waiting::{Waiting, all_passed, both_waiting, front_in};
use lay_doc::parent_at;
use lay_units::NoMemory;
use std::alloc::Global;

/// What waits at each node when all but the root were walked. A node stands behind the one that paints it, so the last nodes
/// come first; most hold no piece that is seen, and are passed over.
#[inline(never)]
pub(crate) fn fronts(
    alloc: Global,
    q: &Question<'_>,
    noted: &NodePieces,
) -> Result<Vec<Waiting>, NoMemory>
    requires styles { length q.now.styles.now ≡ length q.now.doc.now.nodes }
    requires noted { AreNoted q.now (frags_of q.now.tree.now) noted.now }
    ensures fronts { IfOk result (λ v. AreWaiting q.now v.items 1) }
    ensures valid { IsDocument q.now.doc.now }
{
    let mut k = q.doc.nodes().len();
    let nobody = Waiting { group: 0, owner: 0 };
    let mut fronts = vec![in alloc; nobody; k]?;
    while k > 1 {
        k -= 1;
        if is_reached(&fronts, noted, k) {
            pass(q, noted, &mut fronts, k);
        }
    }
    Ok(fronts)
}

/// Passes what waits at the node at k on to its parent, and the node itself where a piece is seen in it.
#[inline(never)]
fn pass(q: &Question<'_>, noted: &NodePieces, fronts: &mut Vec<Waiting>, k: usize)
    requires styles { length q.now.styles.now ≡ length q.now.doc.now.nodes }
    requires noted { AreNoted q.now (frags_of q.now.tree.now) noted.now }
    requires valid { IsDocument q.now.doc.now }
    requires inner { 0 < k }
    requires place { k < length q.now.doc.now.nodes }
    requires before { AreWaiting q.now fronts.old.items (k + 1) }
    ensures { AreWaiting q.now fronts.new.items k }
{
    let parent = parent_at(q.doc.nodes(), k);
    fronts[parent] = passed_on(q, noted, fronts, k);
}

/// What then waits at the parent of the node at k.
fn passed_on(q: &Question<'_>, noted: &NodePieces, fronts: &[Waiting], k: usize) -> Waiting
    requires styles { length q.now.styles.now ≡ length q.now.doc.now.nodes }
    requires noted { AreNoted q.now (frags_of q.now.tree.now) noted.now }
    requires valid { IsDocument q.now.doc.now }
    requires inner { 0 < k }
    requires place { k < length q.now.doc.now.nodes }
    requires before { AreWaiting q.now fronts.now (k + 1) }
    ensures { result ≡ passed_on q.now fronts.now k }
{
    let nodes = q.doc.nodes();
    let here = waiting_at(fronts, k);
    let outer = waiting_at(fronts, parent_at(nodes, k));
    let kind = kind_at(nodes, q.styles, k);
    let is_seen = is_seen(q, noted, kind, here, k);
    let passed = all_passed(q, kind, here, is_seen, k as u32);
    both_waiting(q, outer, passed)
}

/// Whether a piece is seen in the node at k, of this kind and with what waits there.
fn is_seen(q: &Question<'_>, noted: &NodePieces, kind: PaintKind, here: Waiting, k: usize) -> bool
    requires styles { length q.now.styles.now ≡ length q.now.doc.now.nodes }
    requires group { here.group < length q.now.doc.now.nodes }
    requires owner { here.owner < length q.now.doc.now.nodes }
    requires place { k < length noted.now }
    ensures { result ≡ (is_some (slice_index_or noted.now k None) || not (front_in (page q.now) kind here == 0)) }
{
    noted.has(k) || front_in(q, kind, here) != 0
}

/// The frontmost of the nodes that the one at k paints in which a piece is seen; 0 is none.
pub(crate) fn front_at(q: &Question<'_>, fronts: &[Waiting], k: usize) -> usize
    requires styles { length q.now.styles.now ≡ length q.now.doc.now.nodes }
    requires valid { IsDocument q.now.doc.now }
    requires fronts { AreWaiting q.now fronts.now 1 }
    requires place { k < length q.now.doc.now.nodes }
    ensures { result ≡ front_from q.now 1 k }
{
    let kind = kind_at(q.doc.nodes(), q.styles, k);
    front_in(q, kind, waiting_at(fronts, k)) as usize
}

/// Whether a piece is seen in the node at k, or in one that waits there.
fn is_reached(fronts: &[Waiting], noted: &NodePieces, k: usize) -> bool
    requires fronts { k < length fronts.now }
    requires noted { k < length noted.now }
    ensures { result
        ≡ (is_some (slice_index_or noted.now k None)
        || (not ((slice_index_or fronts.now k nobody).group == 0) || not ((slice_index_or fronts.now k nobody).owner == 0))) }
{
    let here = waiting_at(fronts, k);
    noted.has(k) | ((here.group != 0) | (here.owner != 0))
}

/// What waits at a node.
fn waiting_at(fronts: &[Waiting], place: usize) -> Waiting
    requires { place < length fronts.now }
    ensures { result ≡ slice_index_or fronts.now place nobody }
{
    fronts[place]
}
