//! Laws of the definitions.

ghost use Rattle.lay_doc.specs.Tree.{OneSlot, HasSubtree};
ghost use Rattle.lay_doc.specs.Laws.{EditsLeaveDocuments, OneStyleColumn};

/// In a tree the slot of an index is the only one.
pub fn one_slot()
    ensures { OneSlot }
{}

/// A node and its descendants stand together, up to the node's end.
pub fn has_subtree()
    ensures { HasSubtree }
{}

/// The computed styles of a document are the only ones that meet their definition.
pub fn one_style_column()
    ensures { OneStyleColumn }
{}

/// An edit without a fault leaves a document.
pub fn edits_leave_documents()
    ensures { EditsLeaveDocuments }
{}
