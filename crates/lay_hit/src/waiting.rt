//! Nodes that wait for the one that paints them, in a walk from the last node to the first.

ghost use Rattle.std.specs.Prelude.{◌≡◌, ◌<◌, ◌&&◌, true, length};
ghost use Rattle.lay_hit.specs.Fronts.{all_passed, both_waiting, front_in, in_front, passed};
ghost use Rattle.lay_hit.specs.PaintKinds.{forms_group, is_stacking};
ghost use Rattle.lay_hit.specs.Ranks.{is_of_owner};
ghost use Rattle.lay_hit.specs.Questions.{page};

use crate::kinds::PaintKind;
use crate::question::Question;
use crate::rank::{is_behind, is_of_owner};

/// The frontmost of the nodes that wait at a node for their group, and of those that wait there for their owner; 0 is none.
#[derive(Clone, Copy)]
pub(crate) struct Waiting {
    pub group: u32,
    pub owner: u32,
}

/// Of the nodes that wait at a node of this kind, the frontmost that it paints.
pub(crate) fn front_in(q: &Question<'_>, kind: PaintKind, w: Waiting) -> u32
    requires styles { length q.now.styles.now ≡ length q.now.doc.now.nodes }
    requires group { forms_group kind ≡ true → w.group < length q.now.doc.now.nodes }
    requires owner { is_stacking kind ≡ true → w.owner < length q.now.doc.now.nodes }
    ensures { result ≡ front_in (page q.now) kind w }
{
    if !kind.forms_group() {
        return 0;
    }
    if kind.is_stacking() {
        in_front(q, w.group, w.owner)
    } else {
        w.group
    }
}

/// What waits at the parent of the node at k: what waits at the node and doesn't end there, and the node if it is seen.
pub(crate) fn all_passed(
    q: &Question<'_>,
    kind: PaintKind,
    w: Waiting,
    is_seen: bool,
    k: u32,
) -> Waiting
    requires styles { length q.now.styles.now ≡ length q.now.doc.now.nodes }
    requires group { w.group < length q.now.doc.now.nodes }
    requires owner { w.owner < length q.now.doc.now.nodes }
    requires place { k < length q.now.doc.now.nodes }
    ensures { result ≡ all_passed (page q.now) kind w is_seen k }
{
    let by_owner = is_of_owner(kind);
    Waiting {
        group: passed(q, kind.forms_group(), w.group, is_seen && !by_owner, k),
        owner: passed(q, kind.is_stacking(), w.owner, is_seen && by_owner, k),
    }
}

/// What waits at a node, and more that does.
pub(crate) fn both_waiting(q: &Question<'_>, v: Waiting, w: Waiting) -> Waiting
    requires styles { length q.now.styles.now ≡ length q.now.doc.now.nodes }
    requires first_group { v.group < length q.now.doc.now.nodes }
    requires first_owner { v.owner < length q.now.doc.now.nodes }
    requires group { w.group < length q.now.doc.now.nodes }
    requires owner { w.owner < length q.now.doc.now.nodes }
    ensures { result ≡ both_waiting (page q.now) v w }
{
    Waiting {
        group: in_front(q, v.group, w.group),
        owner: in_front(q, v.owner, w.owner),
    }
}

/// The frontmost of those whose way doesn't end at the node at k, and of the node itself if it counts.
fn passed(q: &Question<'_>, ends: bool, inner: u32, counts: bool, k: u32) -> u32
    requires styles { length q.now.styles.now ≡ length q.now.doc.now.nodes }
    requires inner { inner < length q.now.doc.now.nodes }
    requires place { k < length q.now.doc.now.nodes }
    ensures { result ≡ passed (page q.now) ends inner counts k }
{
    let inner = if ends { 0 } else { inner };
    let own = if counts { k } else { 0 };
    in_front(q, inner, own)
}

/// The one of two nodes that is in front; 0 is none.
fn in_front(q: &Question<'_>, j: u32, k: u32) -> u32
    requires styles { length q.now.styles.now ≡ length q.now.doc.now.nodes }
    requires low { j < length q.now.doc.now.nodes }
    requires high { k < length q.now.doc.now.nodes }
    ensures { result ≡ in_front (page q.now) j k }
{
    if j == 0 {
        return k;
    }
    if k == 0 || !is_behind(q, j as usize, k as usize) {
        j
    } else {
        k
    }
}
