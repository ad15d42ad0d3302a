//! The nodes of a run, some at a time.

ghost use Rattle.std.specs.Prelude.{OnOk};
ghost use Rattle.serde_json.specs.View.{items_view};
ghost use Rattle.lay_json.specs.Pulled.{Adds};

use crate::fault::InputFault;
use crate::listing::list_nodes;
use crate::nodes::put_nodes;
use crate::sheet_names::add_all_names;
use crate::spans::Halt;
use lay_cascade::node_names::NamesList;
use lay_run::NodeList;
use lay_run::gathered::Gathered;
use serde_json::Value;
use std::alloc::Global;

/// What was taken of the list `nodes` so far: a document, the ids in their order, and, where names are asked for, what the nodes
/// are called.
#[derive(Drop)]
pub(crate) struct Taken {
    pub doc: Gathered,
    pub listed: NodeList,
    pub names: NamesList,
}

impl From<InputFault> for Halt {
    fn from(fault: InputFault) -> Halt {
        match fault {
            InputFault::NoMemory => Halt::NoMemory,
            _ => Halt::Doubt,
        }
    }
}

impl Taken {
    /// Takes further nodes.
    pub fn add(&mut self, alloc: Global, named: bool, nodes: &[Value]) -> Result<(), Halt>
        ensures { OnOk result (Adds named self.old (items_view nodes.now) self.new) }
    {
        put_nodes(alloc, &mut self.doc, nodes)?;
        list_nodes(&mut self.listed, nodes)?;
        if named {
            add_all_names(alloc, &mut self.names, nodes)?;
        }
        Ok(())
    }
}
