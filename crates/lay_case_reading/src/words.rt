//! The words of a call.

use lay_doc::NodeId;

/// The first word of a text, and what stands after it.
pub(crate) fn first(text: &str) -> (&str, &str) {
    text.split_once(' ').unwrap_or((text, ""))
}

/// The number that a word is; None where it is none.
pub(crate) fn number(word: &str) -> Option<u64> {
    word.parse::<u64>().ok()
}

/// The number below 2^32 that a word is; None where it is none.
pub(crate) fn small_number(word: &str) -> Option<u32> {
    u32::try_from(number(word)?).ok()
}

/// The node whose id a word is; None where it is none.
pub(crate) fn node(word: &str) -> Option<NodeId> {
    Some(NodeId(small_number(word)?))
}
