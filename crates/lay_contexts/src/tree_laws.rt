//! Laws of the definitions. The functions do nothing.

ghost use Rattle.lay_contexts.specs.ContextTree.{ContextsStandOnce};
ghost use Rattle.lay_contexts.specs.DocumentContexts.{ContextsStandInOrder, OneListOfContexts};
ghost use Rattle.lay_contexts.specs.OwnNodes.{OwnNodesDecide};

/// Each context but the root's stands once, among the boxes of the context around it.
pub fn contexts_stand_once()
    ensures { ContextsStandOnce }
{}

/// A document has one list of contexts.
pub fn one_list_of_contexts()
    ensures { OneListOfContexts }
{}

/// In it each context stands behind the one around it.
pub fn contexts_stand_in_order()
    ensures { ContextsStandInOrder }
{}

/// The boxes of a context depend on its own nodes alone.
pub fn own_nodes_decide()
    ensures { OwnNodesDecide }
{}
