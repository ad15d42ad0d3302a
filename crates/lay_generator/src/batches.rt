//! Edits in batches.

ghost use Rattle.std.specs.Prelude.{◌≡◌, ◌++◌, ◌∷◌, [], IfOk, OnOk};
ghost use Rattle.lay_generator.specs.Commands.{batches};

use lay_doc::Edit;
use lay_history::edits::{Cmd, CmdList, Edits};
use lay_units::NoMemory;
use std::alloc::Global;
use std::marker::Model;

const EDITS_OF_A_BATCH: usize = 64;

/// Edits in batches of 64: those that are full, and the one that is being filled. Contracts see the edits.
#[derive(Drop)]
pub(crate) struct Batches {
    alloc: Global,
    full: CmdList,
    last: Option<Edits>,
}

impl Model for Batches {
    ghost use Rattle.std.specs.Prelude.{List};
    ghost use Rattle.lay_doc.specs.declared.edit.Edit.{Edit};
    ghost use Rattle.lay_generator.specs.Batches.{IsInBatches, edits_of};

    ghost Value = { List Edit };

    ghost view = { λ b. edits_of b.full b.last };

    ghost invariant = { λ b. IsInBatches b.full b.last };
}

impl Batches {
    /// No edits.
    pub(crate) fn new(alloc: Global) -> Batches
        ensures { result ≡ [] }
    {
        Batches {
            alloc,
            full: CmdList::new(alloc),
            last: None,
        }
    }

    /// Adds an edit as the last one.
    #[tactic(auto, using(crate::proofs::Batching::begins, crate::proofs::Batching::goes_on, crate::proofs::Batching::fills, crate::proofs::Batching::is_filled))]
    pub(crate) fn push(&mut self, edit: Edit) -> Result<(), NoMemory>
        ensures { OnOk result (self.new ≡ self.old ++ edit ∷ []) }
    {
        let mut edits = match self.last.take() {
            None => {
                self.last = Some(Edits::one(self.alloc, edit)?);
                return Ok(());
            }
            Some(edits) => edits,
        };
        edits.push(edit)?;
        if edits.len() < EDITS_OF_A_BATCH {
            self.last = Some(edits);
            return Ok(());
        }
        self.full.push(Cmd::Edits(edits))
    }

    /// The commands with these edits.
    #[tactic(auto, using(crate::proofs::Batching::all_batches))]
    pub(crate) fn into_commands(self) -> Result<CmdList, NoMemory>
        ensures { IfOk result (λ commands. commands ≡ batches self) }
    {
        let mut commands = self.full;
        if let Some(edits) = self.last {
            commands.push(Cmd::Edits(edits))?;
        }
        Ok(commands)
    }
}
