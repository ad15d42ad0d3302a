//! Documents in document order, and their edits.
//!
//! A document is a viewport and a tree of nodes (`specs/Document.antt`). An edit has a first fault or
//! none, and a document after it (`specs/Edits.antt`). Nodes are found by their ids in an index, and
//! put at slots, of which each index among a node's children has just one (`specs/Tree.antt`). What a node
//! declares is of lay_style; a document has one list of computed styles (`specs/Laws.antt`).
#![tactic(auto)]

mod changing;
mod columns;
mod doc;
mod edit;
mod faults;
mod index;
mod insertion;
mod laws;
mod node;
mod node_ref;
mod placing;
mod removal;

pub use columns::{is_element_at, is_text_at, parent_at};
pub use doc::{Doc, NewFault, root_fault};
pub use edit::{BadDeclaration, Edit, EditFault};
pub use index::{add_number, is_up_to};
pub use laws::{edits_leave_documents, has_subtree, one_slot, one_style_column};
pub use node::{Kind, NewNode, Node, NodeId};
pub use node_ref::NodeRef;
