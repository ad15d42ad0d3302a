//! A solved document is painted once: each box and each text of a tree that solves a document is among what is painted, and once
//! (CSS 2.2, Appendix E). Laws over documents and their trees: their functions do nothing.
//!
//! The pieces of such a tree are of the document's nodes. That goes from box generation, which puts each box of a text into the lines
//! of its container, over the lines and the placements of formatting contexts, to the tree.

mod laws;

pub use laws::{solved_documents_are_painted_once, solved_pieces_are_of_nodes};
