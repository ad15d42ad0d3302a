//! Keys of cells.

use lay_context::Phase;
use lay_doc::NodeId;

/// The key of a cell: the node of its context, and what the context is to be given.
#[derive(Clone, Copy, PartialEq, Eq, PartialOrd, Ord)]
pub struct CellKey {
    pub node: NodeId,
    pub phase: Phase,
}
