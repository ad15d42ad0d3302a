//! Entries of a history.

use crate::edits::command::Reply;
use crate::edits::edits::Edits;

/// What a history records: the command `index` (from 0) of an editor (from 1) with its reply, or that a
/// version is published. A version is the number of accepted lists of edits of the document whose tree it is.
#[derive(Drop)]
pub enum Entry {
    /// A list of edits, with the reply Accepted, Refused or NoMemory.
    Edit {
        editor: u32,
        index: u32,
        edits: Edits,
        reply: Reply,
    },
    /// A version is published.
    Publish {
        version: u64,
    },
    /// The last published version was asked for; the reply is Shown or NoMemory.
    Latest {
        editor: u32,
        index: u32,
        reply: Reply,
    },
    /// The version with all accepted edits was asked for; the reply is Shown or NoMemory.
    Sync {
        editor: u32,
        index: u32,
        reply: Reply,
    },
}
