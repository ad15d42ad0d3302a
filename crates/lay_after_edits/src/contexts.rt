//! The contexts of a document after an edit or a list of edits, from those before it (CSS 2.2, 9.4.1).
//!
//! Where an edit changes styles or a text and nothing by which boxes are generated, the same contexts stand in each other as before it,
//! and their boxes are the same but for their styles and texts (`specs/Contexts/Links.antt`). Then just the boxes of contexts with one
//! of the changed nodes among their own are made anew, and those of all others are shared; `specs/Contexts/Reach.antt` says which these
//! are. After other edits all are made anew.

mod after_all;
mod alike;
mod alike_nodes;
mod anchored;
mod building;
mod changed;
mod doc_pair;
mod edited_doc;
mod later_contexts;
mod marks;
mod near;
mod places;
mod reach;
mod reached;
mod restyled;
mod texts;
mod unstyled;

pub use after_all::contexts_after_all;
pub use building::LaterContexts;
pub use changed::changed_nodes;
pub use doc_pair::DocPair;
pub use edited_doc::EditedDoc;
pub use later_contexts::contexts_after;
pub use restyled::{RestyledNodes, restyled_nodes};
