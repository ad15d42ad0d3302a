//! Cases of the calls of `lay`: their terms, their documents, and the answers that are wanted.
//!
//! The program of these cases makes the calls; what it calls is not known here. Nothing is promised of what is read here, but that it ends
//! and takes no wrong index: the answers that stand in the files show whether it is right.
#![tactic(auto)]

mod answer;
mod case;
mod copies;
mod document_reading;
mod terms;

pub use answer::{Answer, Wanted};
pub use case::Case;
pub use copies::with_copies;
pub use document_reading::reading;
pub use terms::{PLAIN, Steps, Sweep, Terms};
