//! Passes of editors.

ghost use Rattle.std.specs.Prelude.{◌≡◌, length};

use crate::table::CoreSeat;
use std::marker::Model;

/// What an editor carries from call to call: a seat at the table of an engine, the number of the editor, the index of its next call, how
/// many calls are left to it, and a length that the history had.
#[derive(Drop)]
pub struct Pass {
    pub(crate) seat: CoreSeat,
    pub(crate) editor: u32,
    pub(crate) index: u32,
    pub(crate) left: u32,
    pub(crate) seen: u64,
}

impl Model for Pass {
    ghost use Rattle.lay_board.specs.Passes.{IsPass, PassOf, known_of};

    ghost Value = { PassOf };

    ghost view = { λ p. record { table = p.seat.table_id; knows = known_of p.seat.me } };

    ghost invariant = { λ p. IsPass p.seat.me p.editor p.index p.left p.seen };
}

impl Pass {
    /// The number of its editor.
    pub fn editor(&self) -> u32
        ensures { result ≡ self.now.knows.number }
    {
        self.editor
    }

    /// The index of its next call, from 0.
    pub fn index(&self) -> u32
        ensures { result ≡ length self.now.knows.own }
    {
        self.index
    }

    /// How many calls are left to it.
    pub fn left(&self) -> u32
        ensures { result ≡ self.now.knows.left }
    {
        self.left
    }

    /// The length that the history had when it was last told of it.
    pub fn seen(&self) -> u64
        ensures { result ≡ self.now.knows.seen }
    {
        self.seen
    }
}
