//! The laws.

ghost use Rattle.lay_contexts.specs.Edited.Anchors.{AnchorsKeepContextsAround};
ghost use Rattle.lay_contexts.specs.Edited.AnonymousTables.{AnonymousTablesStandByNodes};
ghost use Rattle.lay_contexts.specs.Edited.Bound.{AnchorsTouchNothingAround, EditsTouchNoOthers};
ghost use Rattle.lay_contexts.specs.Edited.Shrinking.{
  RootsFollowTheirContext,
  UnreachedContextsStayOutward,
  UnreachedContextsStayWithin,
  WithinOutwardByNodes,
};
ghost use Rattle.lay_contexts.specs.Edited.Touched.{EditsTouchReachedContexts, UnreachedContextsKeepBoxes};
ghost use Rattle.lay_contexts.specs.Edited.Unreached.{UnreachedNodesStay};

/// A node that an edit doesn't reach is what it was.
pub fn unreached_nodes_stay()
    ensures { UnreachedNodesStay }
{}

/// A context keeps its boxes where an edit reaches none of its own nodes.
pub fn unreached_contexts_keep_boxes()
    ensures { UnreachedContextsKeepBoxes }
{}

/// So an edit touches no contexts but those with a reached node among their own.
pub fn edits_touch_reached_contexts()
    ensures { EditsTouchReachedContexts }
{}

/// Where declarations of an absolute or fixed element change that stays one, it touches its context and those inside it alone.
pub fn anchors_keep_contexts_around()
    ensures { AnchorsKeepContextsAround }
{}

/// Whether the box of an inner context stands in an anonymous table is said by its element and the nodes between.
pub fn anonymous_tables_stand_by_nodes()
    ensures { AnonymousTablesStandByNodes }
{}

/// What the own box of a context, or one around it, may be is said by nodes as by the formatting contexts.
pub fn within_outward_by_nodes()
    ensures { WithinOutwardByNodes }
{}

/// For the anonymous tables and cells in a context it is said by its boxes and by the context.
pub fn roots_follow_their_context()
    ensures { RootsFollowTheirContext }
{}

/// An edit changes what the nodes say of it for elements that it reaches alone.
pub fn unreached_contexts_stay_within()
    ensures { UnreachedContextsStayWithin }
{}

/// And so what the formatting contexts say.
pub fn unreached_contexts_stay_outward()
    ensures { UnreachedContextsStayOutward }
{}

/// So a context stands in the list after an edit as in that before it, or the edit reaches one of its own nodes.
pub fn edits_touch_no_others()
    ensures { EditsTouchNoOthers }
{}

/// Of an absolute or fixed element whose declarations change, and that stays one, the context around is untouched.
pub fn anchors_touch_nothing_around()
    ensures { AnchorsTouchNothingAround }
{}
