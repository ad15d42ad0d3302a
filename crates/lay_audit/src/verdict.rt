//! What an audit finds.

/// Whether a text is a legal report of a run.
#[derive(Clone, Copy, Debug, PartialEq, Eq)]
pub enum Verdict {
    /// It is one.
    Yes,
    /// It is none: the line of this number, from 1, is the first with which no legal report begins. The end of the text
    /// counts as a line.
    No(u64),
}
