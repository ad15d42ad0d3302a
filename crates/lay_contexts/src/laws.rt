//! The laws of the definitions. The functions do nothing.

ghost use Rattle.lay_contexts.specs.Laws.{AnonymousBoxesAreInFlow, ContextsAreNotedAround, ContextsKeepFlowAround, OneContextList};

/// A document has one list of contexts with their boxes.
pub fn one_context_list()
    ensures { OneContextList }
{}

/// Each context but the root's is noted in the one around it, at its box.
pub fn contexts_are_noted_around()
    ensures { ContextsAreNotedAround }
{}

/// What stands for the box of a context in the one around it has the same flow, and is an anchor where it is absolutely
/// positioned.
pub fn contexts_keep_flow_around()
    ensures { ContextsKeepFlowAround }
{}

/// Anonymous boxes are in flow.
pub fn anonymous_boxes_are_in_flow()
    ensures { AnonymousBoxesAreInFlow }
{}
