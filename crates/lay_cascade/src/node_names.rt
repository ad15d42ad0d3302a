//! What the nodes of a document are called: by their tags, their labels and their classes (CSS 2.2, 5.4, 5.8.3 and 5.9).
//!
//! These are plain records. lay_json reads them from a run document, and `styled` asks which selectors they fit.

mod names;
mod names_list;
mod text_list;

pub use names::Names;
pub use names_list::NamesList;
pub use text_list::TextList;
