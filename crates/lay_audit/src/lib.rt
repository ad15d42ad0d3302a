//! Reports that anybody wrote, judged: whether one is a legal report of a run, or which line is the first that no legal
//! report has there.
//!
//! - `check`: the verdict on a report, as one line.
#![tactic(auto)]

mod auditing;
pub mod check;
mod comparing;
mod ending;
mod finding;
mod last_tree;
mod laws;
mod lines;
mod list_lengths;
mod next;
mod present;
mod reading;
mod step;
mod verdict;

pub use auditing::audit;
pub use laws::{
    alike_are_equal, bad_line_is_there, bad_lines_count_from_one, faults_are_refused, one_verdict,
    some_report_is_legal, yes_is_legal,
};
pub use verdict::Verdict;
