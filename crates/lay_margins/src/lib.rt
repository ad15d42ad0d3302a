//! Vertical margins: how adjoining ones collapse, and which ones adjoin (CSS 2.2, 8.3.1).
//!
//! Contracts cite `collapse` of `specs/Collapse.antt`, a function on the list of the margins, and
//! `AreRuns` of `specs/Runs.antt`, a relation on the list of the margins and of what may part them. That
//! has one value for each list (`specs/Laws.antt`).
#![tactic(auto)]

mod adjoining;
mod edge;
mod laws;
mod strut;

pub use adjoining::runs;
pub use edge::{Edge, Run, RunList};
pub use laws::{one_list_of_runs, one_strut};
pub use strut::Strut;
