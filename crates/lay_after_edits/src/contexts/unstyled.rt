//! Whether boxes differ in their styles and texts alone.

ghost use Rattle.std.specs.Prelude.{◌≡◌, IsTrue};
ghost use Rattle.lay_after_edits.specs.Contexts.Unstyled.{all_unstyled, bare_kind, unstyled};

use crate::contexts::alike::same_position;
use lay_box_tree::{BoxKind, BoxNode, Flow};
use lay_same::same_kind;

fn same_flow(a: Flow, b: Flow) -> bool
    ensures { IsTrue result → a ≡ b }
{
    a == b
}

/// Whether two boxes are of one kind, of which texts are one.
fn same_bare_kind(a: &BoxKind, b: &BoxKind) -> bool
    ensures { IsTrue result → bare_kind a.now ≡ bare_kind b.now }
{
    match (a, b) {
        (BoxKind::Text(_), BoxKind::Text(_)) => true,
        _ => same_kind(a, b),
    }
}

/// Whether two boxes are the same but for their styles and texts.
fn is_unstyled_same(a: &BoxNode, b: &BoxNode) -> bool
    ensures { IsTrue result → unstyled a.now ≡ unstyled b.now }
{
    a.node.0 == b.node.0
        && a.parent == b.parent
        && same_flow(a.flow, b.flow)
        && a.anonymous == b.anonymous
        && a.inner == b.inner
        && same_bare_kind(&a.kind, &b.kind)
        && same_position(a.style.position, b.style.position)
}

/// Whether two lists of boxes are.
pub(crate) fn are_unstyled_same(a: &[BoxNode], b: &[BoxNode]) -> bool
    ensures { IsTrue result → all_unstyled a.now ≡ all_unstyled b.now }
{
    if a.len() != b.len() {
        return false;
    }
    for k in 0..a.len() {
        if !is_unstyled_same(&a[k], &b[k]) {
            return false;
        }
    }
    true
}
