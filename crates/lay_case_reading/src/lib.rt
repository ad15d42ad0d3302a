//! What files of cases say: their lines as calls, documents in a short notation, and answers as text.
//!
//! The programs of tests share it, so that few of their functions see a core or another large type: a line becomes a plain call
//! (`CoreCall`, `BatchCall`), the program makes it, and its answer is written as a text (`Said`). Nothing is promised of what is read
//! here, but that it ends and takes no wrong index: the answers that stand in the files show whether it is right.
#![tactic(auto)]

mod batch_call;
mod comparison;
mod core_call;
mod counts;
mod documents;
mod edits;
mod folder;
mod grants;
mod keys;
mod lines;
mod points;
mod rows;
mod said;
mod spans;
mod trial;
mod words;

pub use batch_call::BatchCall;
pub use comparison::{Comparison, Subject, answers, compared, told};
pub use core_call::{CellCall, CoreCall, EditorCall, Question, Taken};
pub use counts::{Limit, Workers};
pub use documents::document;
pub use folder::{files, print, run_document};
pub use grants::{Count, Grants, ids, shown_counts};
pub use keys::{Key, Phase};
pub use points::point;
pub use rows::{Row, ample, number};
pub use said::{Said, push_claim, push_count, shown_reply};
pub use spans::spanned;
pub use trial::Trial;
