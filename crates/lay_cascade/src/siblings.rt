//! The sibling before each node.

ghost use Rattle.std.specs.Prelude.{◌≡◌, ◌+◌, ◌<◌, IfOk, ℕ, length, Some, None};
ghost use Rattle.lay_doc.specs.Document.{parents_of, is_text_at};
ghost use Rattle.lay_doc.specs.Tree.{IsTree};
ghost use Rattle.lay_cascade.specs.Siblings.{IsAdjacent, AreAdjacent};
ghost use Rattle.lay_cascade.specs.LastChildren.{AreLast};

use lay_doc::{Node, is_text_at, parent_at};
use lay_units::NoMemory;
use std::alloc::Global;

/// The nearest sibling before the node at a place that isn't a text.
fn adjacent_at(nodes: &[Node], last: &[Option<usize>], place: usize) -> Option<usize>
    requires tree { IsTree (parents_of nodes.now) }
    requires place { place < length nodes.now }
    requires last { AreLast nodes.now place last.now }
    ensures some { (m : ℕ) → result ≡ Some m → IsAdjacent nodes.now m place }
    ensures none { (m : ℕ) → result ≡ None → IsAdjacent nodes.now m place → ⊥ }
{
    if place == 0 {
        return None;
    }
    let parent = parent_at(nodes, place);
    last[parent]
}

/// Notes the node at a place as the last child of its parent, unless it is a text.
fn note(nodes: &[Node], last: &mut Vec<Option<usize>>, place: usize)
    requires tree { IsTree (parents_of nodes.now) }
    requires place { place < length nodes.now }
    requires last { AreLast nodes.now place last.old.items }
    ensures { AreLast nodes.now (place + 1) last.new.items }
{
    if place == 0 || is_text_at(nodes, place) {
        return;
    }
    let parent = parent_at(nodes, place);
    last[parent] = Some(place);
}

/// No last child yet, for each node.
fn none_last(alloc: Global, nodes: &[Node]) -> Result<Vec<Option<usize>>, NoMemory>
    ensures { IfOk result (λ v. AreLast nodes.now 0 v.items) }
{
    let mut last = Vec::new(alloc);
    for _k in 0..nodes.len() {
        last.push(None)?;
    }
    Ok(last)
}

/// For each node the place of the nearest sibling before it that isn't a text.
pub fn adjacent_of(alloc: Global, nodes: &[Node]) -> Result<Vec<Option<usize>>, NoMemory>
    requires { IsTree (parents_of nodes.now) }
    ensures { IfOk result (λ v. AreAdjacent nodes.now v.items) }
{
    let mut last = none_last(alloc, nodes)?;
    let mut adjacent = Vec::new(alloc);
    for k in 0..nodes.len() {
        let before = adjacent_at(nodes, last.as_slice(), k);
        adjacent.push(before)?;
        note(nodes, &mut last, k);
    }
    Ok(adjacent)
}
