//! Laws of the definitions.

ghost use Rattle.lay_history.specs.Edits.Laws.{FirstIsWithin, ListsLeaveDocuments, OneEditAlone, OneFirst, TwoLists};

/// The first fault of a list is the one at the least place that has one.
pub fn one_first()
    ensures { OneFirst }
{}

/// Its place is one of the list.
pub fn first_is_within()
    ensures { FirstIsWithin }
{}

/// A list of one edit is that edit.
pub fn one_edit_alone()
    ensures { OneEditAlone }
{}

/// A list of two lists is one after the other.
pub fn two_lists()
    ensures { TwoLists }
{}

/// A list without a fault leaves a document.
pub fn lists_leave_documents()
    ensures { ListsLeaveDocuments }
{}
