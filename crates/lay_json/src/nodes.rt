//! The nodes of a run.

ghost use Rattle.std.specs.Prelude.{◌≡◌, ◌≤◌, ◌<◌, length};
ghost use Rattle.serde_json.specs.View.{view, items_view};
ghost use Rattle.lay_json.specs.Fields.{Gives, Changes};
ghost use Rattle.lay_json.specs.Nodes.{bad_decl, node_at, document_of_root, put_last, put_node, put_nodes, document_of};

use crate::fault::{Field, InputFault, Spot};
use crate::fields::object_of;
use crate::new_node::new_node;
use crate::node_form::node_form;
use lay_doc::{BadDeclaration, Doc, EditFault, NewFault, NewNode, NodeId};
use lay_run::gathered::Gathered;
use serde_json::Value;
use std::alloc::Global;

fn bad_decl(node: u32, bad: BadDeclaration) -> InputFault
    ensures { result ≡ bad_decl node bad }
{
    match bad {
        BadDeclaration::Property => InputFault::BadDecl { node, known: false },
        BadDeclaration::Value => InputFault::BadDecl { node, known: true },
    }
}

/// A node with this number: its parent's id, which is 0 for none, and the node itself.
fn node_at(alloc: Global, node: u32, value: &Value) -> Result<(NodeId, NewNode), InputFault>
    ensures { Gives result (node_at node (view value.now)) }
{
    let place = Spot::Node(node);
    object_of(value, Field::Nodes, place)?;
    let form = node_form(value, place)?;
    match new_node(alloc, &form, value)? {
        Ok(new) => Ok((form.parent, new)),
        Err(bad) => Err(bad_decl(node, bad)),
    }
}

/// The document of the first node, which must have no parent.
fn root_of(
    alloc: Global,
    viewport: (u32, u32),
    parent: NodeId,
    root: NewNode,
) -> Result<Gathered, InputFault>
    requires low { (1 ≤ viewport.0) × (1 ≤ viewport.1) }
    requires high { (viewport.0 ≤ 1000000) × (viewport.1 ≤ 1000000) }
    ensures { Gives result (document_of_root viewport (parent, root)) }
{
    if parent.0 != 0 {
        return Err(InputFault::BadNode {
            node: 0,
            fault: EditFault::NoNode,
        });
    }
    match Gathered::new(alloc, viewport.0, viewport.1, root) {
        Ok(doc) => Ok(doc),
        Err(NewFault::Bad(fault)) => Err(InputFault::BadNode { node: 0, fault }),
        Err(NewFault::NoMemory) => Err(InputFault::NoMemory),
    }
}

/// How many nodes a document has: the number of the next one.
fn next_number(doc: &Gathered) -> u32
    ensures { result ≡ length doc.now.nodes }
{
    doc.len() as u32
}

/// Puts a node into the document as the last child of its parent.
fn put_last(doc: &mut Gathered, parent: NodeId, new: NewNode) -> Result<(), InputFault>
    ensures { Changes result doc.new (put_last doc.old (parent, new)) }
{
    if let Some(fault) = doc.check_last(parent, &new) {
        let node = next_number(doc);
        return Err(InputFault::BadNode { node, fault });
    }
    doc.push_last(parent, new)?;
    Ok(())
}

/// Reads the next node and puts it into the document.
fn put_node(alloc: Global, doc: &mut Gathered, value: &Value) -> Result<(), InputFault>
    ensures { Changes result doc.new (put_node doc.old (view value.now)) }
{
    let (parent, new) = node_at(alloc, next_number(doc), value)?;
    put_last(doc, parent, new)
}

/// Reads further nodes and puts them into the document.
pub(crate) fn put_nodes(
    alloc: Global,
    doc: &mut Gathered,
    values: &[Value],
) -> Result<(), InputFault>
    ensures { Changes result doc.new (put_nodes doc.old (items_view values.now)) }
{
    for value in values {
        put_node(alloc, doc, value)?;
    }
    Ok(())
}

/// The document of a first node and those after it, to which more may be put.
pub(crate) fn gathered(
    alloc: Global,
    viewport: (u32, u32),
    first: &Value,
    rest: &[Value],
) -> Result<Gathered, InputFault>
    requires low { (1 ≤ viewport.0) × (1 ≤ viewport.1) }
    requires high { (viewport.0 ≤ 1000000) × (viewport.1 ≤ 1000000) }
    ensures { Gives result (document_of viewport (view first.now) (items_view rest.now)) }
{
    let (parent, root) = node_at(alloc, 0, first)?;
    let mut doc = root_of(alloc, viewport, parent, root)?;
    put_nodes(alloc, &mut doc, rest)?;
    Ok(doc)
}

/// The document of a first node and those after it.
pub(crate) fn document_of(
    alloc: Global,
    viewport: (u32, u32),
    first: &Value,
    rest: &[Value],
) -> Result<Doc, InputFault>
    requires low { (1 ≤ viewport.0) × (1 ≤ viewport.1) }
    requires high { (viewport.0 ≤ 1000000) × (viewport.1 ≤ 1000000) }
    ensures { Gives result (document_of viewport (view first.now) (items_view rest.now)) }
{
    let doc = gathered(alloc, viewport, first, rest)?;
    Ok(doc.into_doc(alloc)?)
}
