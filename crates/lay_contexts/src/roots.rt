//! The roots among the boxes of a context.

ghost use Rattle.std.specs.Prelude.{◌≡◌, ◌<◌, ◌^◌, length};
ghost use Rattle.lay_box_tree.specs.Containers.{box_parent};
ghost use Rattle.lay_box_tree.specs.BoxColumns.{box_at};
ghost use Rattle.lay_contexts.specs.Homes.{is_anonymous_root, is_root, is_wrapper_or_cell};

use lay_box_tree::{BoxKind, BoxNode};

/// Whether the box at k is a root: the context's own box, or an anonymous one that establishes a formatting context.
pub(crate) fn is_root(boxes: &[BoxNode], k: usize) -> bool
    requires { k < length boxes.now }
    ensures { result ≡ is_root boxes.now k }
{
    k == 0 || is_anonymous_root(&boxes[k])
}

/// Whether an anonymous box establishes a formatting context.
fn is_anonymous_root(node: &BoxNode) -> bool
    ensures { result ≡ is_anonymous_root node.now }
{
    node.anonymous && !node.inner && is_wrapper_or_cell(&node.kind)
}

fn is_wrapper_or_cell(kind: &BoxKind) -> bool
    ensures { result ≡ is_wrapper_or_cell kind.now }
{
    matches!(
        kind,
        BoxKind::Wrapper | BoxKind::InlineWrapper | BoxKind::Cell { .. }
    )
}

/// The place of the parent of the box at k.
pub(crate) fn box_parent(boxes: &[BoxNode], k: usize) -> usize
    requires { k < length boxes.now }
    ensures parent { result ≡ box_parent boxes.now k }
    ensures same { result ≡ (box_at boxes.now k).parent }
    ensures small { result < 2 ^ 32 }
{
    boxes[k].parent as usize
}
