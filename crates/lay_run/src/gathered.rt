//! Documents of nodes that are listed one after the other, each behind its parent, in any such order.
//!
//! Each listed node is put into the document as the last child of its parent (`specs/Gathered/ListedDocuments.antt`). lay_doc's list of
//! nodes is in document order, and a node that is put into its middle moves all behind it. A `Gathered` is the same
//! document while its nodes are listed: a node that is put in is linked to the one before it in document order, and none moves. At
//! the end the links are followed, and each node is put behind all others.

mod gathered;
mod listing;
mod numbers;
mod walk;

pub use gathered::Gathered;
