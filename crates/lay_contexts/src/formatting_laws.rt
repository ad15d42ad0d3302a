//! The laws of the definitions. The functions do nothing.

ghost use Rattle.lay_contexts.specs.Homes.{OneHome};
ghost use Rattle.lay_contexts.specs.FormattingLaws.{AnchorsStandForAbsoluteBoxes, BoxesStandAtHome, ElementsAreContexts};
ghost use Rattle.lay_contexts.specs.FormattingLaws.{FormattingContextsStandInOrder, InnerNumbersLeadBack};
ghost use Rattle.lay_contexts.specs.FormattingLaws.{OneFormattingContextList, RootsStandFirst, WholeContextsKeepBoxes};

/// A box has one home.
pub fn one_home()
    ensures { OneHome }
{}

/// Contexts have one list of formatting contexts.
pub fn one_formatting_context_list()
    ensures { OneFormattingContextList }
{}

/// They stand in order, each behind the one around it.
pub fn formatting_contexts_stand_in_order()
    ensures { FormattingContextsStandInOrder }
{}

/// Out of one to its box in the one around it, and inside again there, leads back to it.
pub fn inner_numbers_lead_back()
    ensures { InnerNumbersLeadBack }
{}

/// Its box there is an anchor just where its own box is absolutely positioned.
pub fn anchors_stand_for_absolute_boxes()
    ensures { AnchorsStandForAbsoluteBoxes }
{}

/// Each box of a context but its own stands in the list of its home.
pub fn boxes_stand_at_home()
    ensures { BoxesStandAtHome }
{}

/// Each root stands first in its own list.
pub fn roots_stand_first()
    ensures { RootsStandFirst }
{}

/// The formatting contexts of elements are the contexts in their order.
pub fn elements_are_contexts()
    ensures { ElementsAreContexts }
{}

/// In a context without anonymous tables and cells the formatting context has the same boxes.
pub fn whole_contexts_keep_boxes()
    ensures { WholeContextsKeepBoxes }
{}
