//! A report beside a run document, judged: one line says whether it is a legal report of the run, whoever wrote it, or else the
//! number of the first line with which no legal report begins.
//!
//! `verdict_on` answers the line of the verdict that the audit finds (`specs/Check/Judging.antt`). The law `yes_is_for_legal_reports` says
//! that the line is `yes` just where the report is a legal one.

mod judging;
mod laws;
mod verdict_line;

pub use judging::verdict_on;
pub use laws::{one_verdict_line, yes_is_for_legal_reports};
