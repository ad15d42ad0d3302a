//! The order of the list of nodes.

ghost use Rattle.std.specs.Prelude.{◌≡◌, ◌++◌, ◌∷◌, IfOk, OnOk};
ghost use Rattle.serde_json.specs.View.{view, items_view};
ghost use Rattle.lay_json.specs.Listing.{id_in, ids_in, IsNodeListing};

use crate::fault::Field;
use crate::fields::{IDS, value_in, whole_within};
use lay_doc::NodeId;
use lay_run::NodeList;
use lay_units::NoMemory;
use serde_json::Value;
use std::alloc::Global;

/// The id of a node, after its form was judged.
fn id_in(node: &Value) -> NodeId
    ensures { result ≡ id_in (view node.now) }
{
    let id = whole_within(IDS, value_in(node, Field::Id));
    NodeId(id.unwrap_or(0) as u32)
}

/// Adds the ids of further nodes, after their forms were judged.
pub(crate) fn list_nodes(listed: &mut NodeList, nodes: &[Value]) -> Result<(), NoMemory>
    ensures { OnOk result (listed.new ≡ listed.old ++ ids_in (items_view nodes.now)) }
{
    for node in nodes {
        listed.push(id_in(node))?;
    }
    Ok(())
}

/// The ids of a first node and of those after it, in this order, after their forms were judged.
pub(crate) fn listed_in(alloc: Global, first: &Value, rest: &[Value]) -> Result<NodeList, NoMemory>
    ensures value { IfOk result (λ l. l ≡ id_in (view first.now) ∷ ids_in (items_view rest.now)) }
    ensures listed { IfOk result (λ l. IsNodeListing (view first.now) (items_view rest.now) l) }
{
    let mut listed = NodeList::new(alloc);
    listed.push(id_in(first))?;
    list_nodes(&mut listed, rest)?;
    Ok(listed)
}
