//! The laws. The functions do nothing.

ghost use Rattle.lay_hit.specs.Painted.Laws.{SolvedDocumentsArePaintedOnce, SolvedPiecesAreOfNodes};

use crate::paints_each_once;
use lay_contexts::formatting_contexts_stand_in_order;

/// The pieces of a tree that solves a document are of the document's nodes, and those of texts are of texts.
pub fn solved_pieces_are_of_nodes()
    ensures { SolvedPiecesAreOfNodes }
{
    formatting_contexts_stand_in_order();
}

/// Each box and each text of a tree that solves a document is painted once.
pub fn solved_documents_are_painted_once()
    ensures { SolvedDocumentsArePaintedOnce }
{
    solved_pieces_are_of_nodes();
    paints_each_once();
}
