//! What those who have a seat at the table know. No value of these types is made.

use lay_core::Core;
use lay_doc::Doc;
use lay_face::Face;
use lay_history::edits::Entry;
use std::collections::LinkedList;

/// What an engine was started with, beside the calls: the document before any edit, and the face that texts are measured in.
pub struct Origin {
    pub document: Doc,
    pub face: Face,
}

/// What a pass knows: the number of its editor, how many calls it may make, a beginning of the history, the entries of its editor in it,
/// a length that the history had, and how often it loaded that length outside its calls.
pub struct PassView {
    pub origin: Origin,
    pub number: u64,
    pub left: u64,
    pub known: LinkedList<Entry>,
    pub own: LinkedList<Entry>,
    pub seen: u64,
    pub looks: u64,
}

/// What the maker of passes knows: how many were made, and the numbers of calls that those to be made are given.
pub struct MakerView {
    pub origin: Origin,
    pub made: u64,
    pub calls: LinkedList<u32>,
}

/// What a seat knows: as a maker, as a pass, as a guest, who is told what the engine was started with, of the core that it has, as it was
/// when all were told of it, and of a pass that it met.
pub struct View {
    pub maker: Option<MakerView>,
    pub pass: Option<PassView>,
    pub guest: Option<Origin>,
    pub hold: Option<Core>,
    pub met: Option<PassView>,
}
