//! The limits of a document, as `specs/Limits.antt` has them.

/// The most nodes of a document.
pub const MOST_NODES: usize = 1 << 16;

/// The greatest depth of a node, where the root has the depth 1.
pub const MOST_DEPTH: u32 = 1 << 7;

/// The most bytes of a text.
pub const LONGEST_TEXT: usize = 1 << 16;

/// The most bytes of all texts of a document together.
pub const MOST_TEXT: usize = 1 << 20;
