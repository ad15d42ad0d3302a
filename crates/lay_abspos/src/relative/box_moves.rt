//! By how much the boxes of one formatting context are moved, as it is kept.

ghost use Rattle.std.specs.Prelude.{◌≡◌, replicate};
ghost use Rattle.lay_abspos.specs.Relative.MoveBounds.{AreNearMoves, IsMoveNear};
ghost use Rattle.lay_abspos.specs.Relative.Moves.{move_at};
ghost use Rattle.lay_abspos.specs.Relative.RelativeOffsets.{no_offset};

use crate::relative::offset::{NO_OFFSET, Offset};
use std::marker::Model;

/// By how much each box of a formatting context is moved, in the order of the boxes: at most 2^60 units each way.
#[derive(Drop)]
pub struct BoxMoves {
    /// How many boxes there are: so long is the list that contracts see.
    count: usize,
    /// The move of each; None where no box is moved, as in most formatting contexts.
    kept: Option<Vec<Offset>>,
}

impl Model for BoxMoves {
    ghost use Rattle.std.specs.Prelude.{List};
    ghost use Rattle.std.specs.Option.{option_map};
    ghost use Rattle.lay_abspos.specs.declared.relative.offset.Offset.{Offset};
    ghost use Rattle.lay_abspos.specs.Relative.MoveBounds.{AreNearMoves};
    ghost use Rattle.lay_abspos.specs.Relative.Moves.{all_moves};

    ghost Value = { List Offset };

    ghost view = { λ m. all_moves m.count (option_map (λ v. v.items) m.kept) };

    ghost invariant = { λ m. AreNearMoves (all_moves m.count (option_map (λ v. v.items) m.kept)) };
}

impl BoxMoves {
    /// These.
    pub(crate) fn new(moves: Vec<Offset>) -> BoxMoves
        requires { AreNearMoves moves.items }
        ensures { result ≡ moves.items }
    {
        BoxMoves {
            count: moves.len(),
            kept: Some(moves),
        }
    }

    /// Those of so many boxes of which none is moved.
    pub(crate) fn none(count: usize) -> BoxMoves
        ensures { result ≡ replicate count no_offset }
    {
        BoxMoves { count, kept: None }
    }

    /// By how much the box at k is moved, if there is one.
    pub fn at(&self, k: usize) -> Offset
        ensures value { result ≡ move_at self.now k }
        ensures near { IsMoveNear result }
    {
        match &self.kept {
            Some(kept) => move_at(kept, k),
            None => NO_OFFSET,
        }
    }
}

/// The move of the box at k among these, if there is one.
fn move_at(kept: &[Offset], k: usize) -> Offset
    ensures { result ≡ move_at kept.now k }
{
    match kept.get(k) {
        Some(offset) => *offset,
        None => NO_OFFSET,
    }
}
