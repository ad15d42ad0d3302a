//! Of each node a piece or none.

ghost use Rattle.std.specs.Prelude.{◌≡◌, ◌<◌, Some, None, is_some, length, replicate};
ghost use Rattle.std.specs.Prelude.{slice_index, slice_index_or, slice_set, IfOk, OnOk};

use lay_frag::{Frag, piece_at};
use lay_units::NoMemory;
use std::alloc::Global;
use std::marker::Model;

/// Of each node a piece or none. Most nodes have none, so each takes a number alone, and the pieces stand in a list beside.
#[derive(Drop)]
pub(crate) struct NodePieces {
    /// Of each node 0 where it has none, or one more than the place of its piece.
    numbers: Vec<usize>,
    pieces: Vec<Frag>,
}

impl Model for NodePieces {
    ghost use Rattle.std.specs.Prelude.{List, Option};
    ghost use Rattle.lay_frag.specs.declared.frag.Frag.{Frag};
    ghost use Rattle.lay_hit.specs.NodePieces.{AreNumbers, node_pieces};

    ghost Value = { List (Option Frag) };

    ghost view = { λ p. node_pieces p.pieces.items p.numbers.items };

    ghost invariant = { λ p. AreNumbers p.pieces.items p.numbers.items };
}

impl NodePieces {
    /// None for each of so many nodes.
    #[tactic(auto, using(crate::proofs::NodePieceLists::nothing_yet, crate::proofs::NodePieceLists::zeros))]
    pub(crate) fn new(alloc: Global, count: usize) -> Result<NodePieces, NoMemory>
        ensures { IfOk result (λ p. p ≡ replicate count None) }
    {
        Ok(NodePieces {
            numbers: vec![in alloc; 0; count]?,
            pieces: Vec::new(alloc),
        })
    }

    /// Whether the node at a place has one.
    #[tactic(auto, using(crate::proofs::NodePieceLists::piece_at_number, crate::proofs::NodePieceLists::has_piece))]
    pub(crate) fn has(&self, place: usize) -> bool
        requires { place < length self.now }
        ensures { result ≡ is_some (slice_index_or self.now place None) }
    {
        number_at(&self.numbers, place) != 0
    }

    /// The piece of the node at a place.
    #[tactic(auto, using(crate::proofs::NodePieceLists::piece_at_number, crate::proofs::NodePieceLists::has_piece))]
    pub(crate) fn get(&self, place: usize) -> Option<Frag>
        requires { place < length self.now }
        ensures { result ≡ slice_index_or self.now place None }
    {
        match number_at(&self.numbers, place) {
            0 => None,
            number => Some(piece_at(&self.pieces, number - 1)),
        }
    }

    /// Gives the node at a place this piece.
    #[tactic(auto, using(crate::proofs::NodePieceLists::set_piece, crate::proofs::NodePieceLists::still_numbers))]
    pub(crate) fn set(&mut self, place: usize, piece: Frag) -> Result<(), NoMemory>
        requires { place < length self.old }
        ensures set { OnOk result (self.new ≡ slice_set self.old place (Some piece)) }
        ensures count { length self.new ≡ length self.old }
    {
        self.pieces.push(piece)?;
        self.numbers[place] = self.pieces.len();
        Ok(())
    }
}

fn number_at(numbers: &[usize], place: usize) -> usize
    requires { place < length numbers.now }
    ensures { result ≡ slice_index numbers.now place }
{
    numbers[place]
}
