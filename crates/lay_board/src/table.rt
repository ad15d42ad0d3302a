//! The table that the core lies in, with its rule and what is told at its steps.

use crate::views::View;
use atomic_table::{Join, Play, Seat, Split, Table, TableRule};
use lay_core::Core;
use lay_doc::Doc;
use lay_face::Face;
use std::alloc::Global;
use std::snapshot::Snapshot;

/// What a table is told once: the document before any edit, the face, and the numbers of calls that passes are given. It has no bytes.
#[derive(Drop)]
pub struct Terms {
    pub document: Snapshot<Doc>,
    pub face: Snapshot<Face>,
    pub calls: Snapshot<Vec<u32>>,
}

/// The first word is the length of the history, the second is 1 while the core is out.
pub struct InOneOrder;

impl TableRule<Option<Core>, View, Terms> for InOneOrder {
    ghost use Rattle.lay_board.specs.Cores.{origin_told};
    ghost use Rattle.lay_board.specs.Rules.{IsKept, maker_view};

    ghost holds = { λ k s. IsKept (origin_told k) s };

    ghost first = { λ k. maker_view (origin_told k) 0 k.calls.value.items };
}

pub type Shelf = Table<Option<Core>, View, Terms, InOneOrder, Global>;

pub type CoreSeat = Seat<Option<Core>, View>;

/// The core is taken, or it is out.
pub struct Takes;

impl Play<Option<Core>, View> for Takes {
    ghost use Rattle.lay_board.specs.Rules.{TakesIt};

    ghost then = { TakesIt };
}

/// All are told of the history of the core that is out.
pub struct Tells;

impl Play<Option<Core>, View> for Tells {
    ghost use Rattle.lay_board.specs.Rules.{TellsIt};

    ghost then = { TellsIt };
}

/// The core goes home.
pub struct Gives;

impl Play<Option<Core>, View> for Gives {
    ghost use Rattle.lay_board.specs.Rules.{GivesIt};

    ghost then = { GivesIt };
}

/// A pass loads the length.
pub struct Looks;

impl Play<Option<Core>, View> for Looks {
    ghost use Rattle.lay_board.specs.Rules.{LooksIt};

    ghost then = { LooksIt };
}

/// A guest comes.
pub struct Comes;

impl Play<Option<Core>, View> for Comes {
    ghost use Rattle.lay_board.specs.Rules.{ComesIt};

    ghost then = { ComesIt };
}

/// A pass is made.
pub struct Makes;

impl Split<View> for Makes {
    ghost use Rattle.lay_board.specs.Rules.{maker_after, next_pass};

    ghost left = { maker_after };

    ghost right = { next_pass };
}

/// Who has the core meets a pass.
pub struct Meets;

impl Join<View> for Meets {
    ghost use Rattle.lay_board.specs.Rules.{blank_view, meeting};

    ghost both = { meeting };

    ghost spent = { blank_view };
}

/// Who has the core is told of the pass that it met.
pub struct Learns;

impl Play<Option<Core>, View> for Learns {
    ghost use Rattle.lay_board.specs.Rules.{LearnsIt};

    ghost then = { LearnsIt };
}
