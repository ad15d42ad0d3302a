//! The top call: from words and the bytes of a run document to a report, or to the line of a refusal.
//!
//! `top` reads the words (lay_words) and the source, takes the bytes for a run document (lay_json), lays it out from scratch
//! (lay_context) or drives its editors on threads of their own beside workers (lay_drive), and writes the report (lay_report) into
//! the sink, or which piece is seen at a point (lay_hit). Or it judges a report that stands beside a run document (lay_audit). Its
//! contract is in the words of `specs/Answers.antt`: which text answers which words and bytes; `specs/Endings.antt` says what a status
//! says of the sink. A program's `main` returns the `Exit` that `top` does, so its exit status is the number of that status.
//!
//! `scratch`, `hit` and `check` are the calls that it makes for these words: they are given no runtime, so they start no thread and
//! wait for none, and they return. The law `run_reports_are_answered_yes` says that the reports of `run` are answered `yes` by `check`,
//! and `one_summary` that `gen` writes the same for the same numbers (`specs/Summaries.antt`).
//!
//! - `run_reports`: the reports of this engine are legal.
#![tactic(auto)]

mod at_point;
mod call;
mod check_input;
mod checking;
mod drive;
mod exit;
mod from_scratch;
mod input;
mod laws;
mod means;
mod refusal;
mod run_input;
pub mod run_reports;
mod status;
mod telling;

pub use at_point::hit;
pub use call::top;
pub use checking::check;
pub use exit::Exit;
pub use from_scratch::scratch;
pub use laws::{
    one_hit_report, one_summary, run_reports_are_answered_yes, summaries_come_of_numbers,
};
pub use means::Means;
pub use status::Status;
