//! The laws of the definitions. The functions do nothing.

ghost use Rattle.lay_shape.specs.Laws.{CellsAreOfContexts, CellsHaveAShape, CellsStandOnce};
ghost use Rattle.lay_shape.specs.Laws.{ContextsAreOfOwnNodes, NeedsStandBefore, WaysAreLists};

/// Just the contexts on the way out to a containing block are listed as those.
pub fn ways_are_lists()
    ensures { WaysAreLists }
{}

/// Each phase of each context is one cell.
pub fn cells_stand_once()
    ensures { CellsStandOnce }
{}

/// And there are no other cells.
pub fn cells_are_of_contexts()
    ensures { CellsAreOfContexts }
{}

/// What a cell depends on stands before it.
pub fn needs_stand_before()
    ensures { NeedsStandBefore }
{}

/// Cells can be kept in this shape.
pub fn cells_have_a_shape()
    ensures { CellsHaveAShape }
{}

/// No two contexts of a document are of one node.
pub fn contexts_are_of_own_nodes()
    ensures { ContextsAreOfOwnNodes }
{}
