//! Which formatting contexts are tables.

ghost use Rattle.std.specs.Prelude.{◌≡◌};
ghost use Rattle.lay_context_sizes.specs.TableContexts.{is_table};

use lay_box_tree::{BoxNode, is_wrapper};

/// Whether the formatting context with these boxes is a table: its own box is the wrapper of one.
pub(crate) fn is_table(boxes: &[BoxNode]) -> bool
    ensures { result ≡ is_table boxes.now }
{
    match boxes.get(0) {
        Some(node) => is_wrapper(&node.kind),
        None => false,
    }
}
