//! Laws of the definitions. The functions do nothing.

ghost use Rattle.lay_boxgen.specs.BoxBounds.{BoxesAreFew};
ghost use Rattle.lay_boxgen.specs.InnerBoxes.{BoxesLeadOn};
ghost use Rattle.lay_boxgen.specs.KindLaws.{KindsSayForms};
ghost use Rattle.lay_boxgen.specs.Laws.{AnchorsHoldBoxes, ContextIsOneBox, PartsAreWhole};
ghost use Rattle.lay_boxgen.specs.TreeLaws.{BoxesAreATree, InnerBoxesAreLeaves};

/// The boxes of a node and all below it are the part of its context, with the boxes of inner contexts inside
/// theirs.
pub fn parts_are_whole()
    ensures { PartsAreWhole }
{}

/// A node whose box is no inline box has one box in the end, with what is generated in it inside.
pub fn context_is_one_box()
    ensures { ContextIsOneBox }
{}

/// An anchor has the boxes of its absolute or fixed element in it.
pub fn anchors_hold_boxes()
    ensures { AnchorsHoldBoxes }
{}

/// The boxes of a context stand in a tree.
pub fn boxes_are_a_tree()
    ensures { BoxesAreATree }
{}

/// In the list of a context's boxes those of inner contexts are of contexts again, further on in the
/// document.
pub fn boxes_lead_on()
    ensures { BoxesLeadOn }
{}

/// In the list of a context's boxes the first isn't that of an inner context, and no box is inside one of those.
pub fn inner_boxes_are_leaves()
    ensures { InnerBoxesAreLeaves }
{}

/// The kind of a listed box says what its form said to box generation.
pub fn kinds_say_forms()
    ensures { KindsSayForms }
{}

/// A context has few boxes beside the document's nodes and its depth.
pub fn boxes_are_few()
    ensures { BoxesAreFew }
{}
