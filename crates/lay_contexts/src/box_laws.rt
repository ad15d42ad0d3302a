//! Laws of the definitions. The functions do nothing.

ghost use Rattle.lay_contexts.specs.FlowLaws.{AnonymousBoxesAreInFlow, InnerBoxesKeepFlow, OwnBoxesKeepFlow};
ghost use Rattle.lay_contexts.specs.LevelLaws.{BoxesHoldOneLevel};
ghost use Rattle.lay_contexts.specs.NodeTreeLaws.{ChildrenStandInOrder};
ghost use Rattle.lay_contexts.specs.WhiteSpaceLaws.{WhiteSpaceGoesByItself};

/// The tree of a node is its box with the trees of its children in it, in document order.
pub fn children_stand_in_order()
    ensures { ChildrenStandInOrder }
{}

/// Whether a child of a box is irrelevant white space is said by the child and the siblings next to it.
pub fn white_space_goes_by_itself()
    ensures { WhiteSpaceGoesByItself }
{}

/// The own box of a context has the flow of its element's box.
pub fn own_boxes_keep_flow()
    ensures { OwnBoxesKeepFlow }
{}

/// What stands for it in the context around has the same flow, and is an anchor where it is absolutely positioned.
pub fn inner_boxes_keep_flow()
    ensures { InnerBoxesKeepFlow }
{}

/// Anonymous boxes are in flow.
pub fn boxes_without_elements_are_in_flow()
    ensures { AnonymousBoxesAreInFlow }
{}

/// A block container holds boxes of one level in flow, and an inline box no block-level one.
pub fn boxes_hold_one_level()
    ensures { BoxesHoldOneLevel }
{}
