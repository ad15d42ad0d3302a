//! What comes of reading on.

/// What comes of reading on.
#[derive(Clone, Copy)]
pub(crate) enum Next {
    /// An entry was read, with the lines of the tree that it shows.
    Entry,
    /// The line of this number is the first bad one.
    Bad(u64),
    /// No entry's line stands next.
    NoEntry,
}
