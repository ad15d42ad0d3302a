//! Of which contexts the boxes changed, where an edit leaves which contexts there are.

ghost use Rattle.std.specs.Prelude.{◌≡◌, ◌<◌, ◌↔◌, false, IsTrue, IfOk, length};
ghost use Rattle.lay_contexts.specs.Contexts.{boxes_in};
ghost use Rattle.lay_shape.specs.Keys.{node_of};
ghost use Rattle.lay_shape.specs.KeptShapes.KeptBoxes.{AreBoxFlags, AreOfSameNodes};

use crate::kept_shapes::touched_keys::same_context;
use crate::needs::node_of;
use lay_contexts::Contexts;
use lay_units::NoMemory;
use std::alloc::Global;

/// Whether the contexts after an edit are, one by one, of the nodes of those before it.
pub fn are_of_same_nodes(before: &Contexts, after: &Contexts) -> bool
    ensures { IsTrue result ↔ AreOfSameNodes before.now after.now }
{
    if before.len() != after.len() {
        return false;
    }
    for i in 0..before.len() {
        if !is_of_same_node(before, after, i) {
            return false;
        }
    }
    true
}

/// Whether the context with the number i is.
fn is_of_same_node(before: &Contexts, after: &Contexts, i: usize) -> bool
    requires here { i < length before.now }
    requires there { i < length after.now }
    ensures { IsTrue result ↔ (node_of after.now i ≡ node_of before.now i) }
{
    node_of(after, i).0 == node_of(before, i).0
}

/// For each context whether its boxes changed.
pub fn changed_flags(
    alloc: Global,
    before: &Contexts,
    after: &Contexts,
) -> Result<Vec<bool>, NoMemory>
    requires { AreOfSameNodes before.now after.now }
    ensures { IfOk result (λ v. AreBoxFlags before.now after.now v.items) }
{
    let count = before.len();
    let mut flags = Vec::with_capacity(alloc, count)?;
    for i in 0..count {
        flags.push(is_changed(before, after, i))?;
    }
    Ok(flags)
}

/// Whether the boxes of the context with the number i did.
fn is_changed(before: &Contexts, after: &Contexts, i: usize) -> bool
    requires here { i < length before.now }
    requires there { i < length after.now }
    ensures { (result ≡ false) ↔ (boxes_in after.now i ≡ boxes_in before.now i) }
{
    !same_context(before, after, i)
}
