//! Which nodes of a document are contexts, all at once.

ghost use Rattle.std.specs.Prelude.{◌≡◌, ◌<◌, IfOk, length};
ghost use Rattle.lay_doc.specs.Document.{parents_of};
ghost use Rattle.lay_doc.specs.Tree.{IsTree};
ghost use Rattle.lay_boxgen.specs.Contexts.{AreNodeContextFlags};
ghost use Rattle.lay_boxgen.specs.GeneratedBoxes.{AreGenerated, IsGenerated};

use crate::contexts::{box_at, is_marked, keeps};
use crate::facts::Facts;
use lay_doc::{Doc, Node, parent_at};
use lay_style::{Computed, Style};
use lay_units::NoMemory;
use std::alloc::Global;

/// For each node of a document whether it is a context (CSS 2.2, 9.4.1), as `is_context` says it of one. A style is given for
/// each node.
pub fn context_flags(alloc: Global, doc: &Doc, style: &Computed) -> Result<Vec<bool>, NoMemory>
    requires styles { length style.now ≡ length doc.now.nodes }
    ensures { IfOk result (λ v. AreNodeContextFlags doc.now.nodes style.now v.items) }
{
    let nodes = doc.nodes();
    let styles = style.as_slice();
    let mut generated = Vec::with_capacity(alloc, nodes.len())?;
    let mut contexts = Vec::with_capacity(alloc, nodes.len())?;
    for k in 0..nodes.len() {
        let facts = generated_box(nodes, styles, &generated, k);
        contexts.push(is_marked(facts))?;
        generated.push(facts)?;
    }
    Ok(contexts)
}

/// The box that the node at k generates, where it does, and that is known of the nodes before it.
fn generated_box(
    nodes: &[Node],
    styles: &[Style],
    generated: &[Option<Facts>],
    k: usize,
) -> Option<Facts>
    requires place { k < length nodes.now }
    requires styles { length styles.now ≡ length nodes.now }
    requires tree { IsTree (parents_of nodes.now) }
    requires known { AreGenerated nodes.now styles.now k generated.now }
    ensures { IsGenerated nodes.now styles.now k result }
{
    let facts = box_at(nodes, styles, k);
    if k == 0 {
        return facts;
    }
    let around = generated[parent_at(nodes, k)];
    if keeps(around, facts) {
        return facts;
    }
    None
}
