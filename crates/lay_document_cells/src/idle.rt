//! Why no claim was handed out.

ghost use Rattle.std.specs.Prelude.{◌≡◌};

use std::marker::Model;

/// Why there is no claim to hand out.
#[derive(Clone, Copy)]
pub enum IdleKind {
    /// No cell is dirty.
    Settled,
    /// Each cell that is ready is claimed, and this is the least number of their claims.
    Busy(u64),
    /// Too many numbers are drawn for another claim.
    Spent,
}

/// An answer of `claim_some` that hands out no claim. No other call makes one.
#[derive(Drop)]
pub struct Idle {
    kind: IdleKind,
}

impl Model for Idle {
    ghost use Rattle.lay_document_cells.specs.declared.idle.IdleKind.{IdleKind as Kind};

    ghost Value = { Kind };

    ghost view = { λ i. i.kind };
}

impl Idle {
    /// The answer for this reason.
    pub(crate) fn new(kind: IdleKind) -> Idle
        ensures { result ≡ kind }
    {
        Idle { kind }
    }

    /// The reason.
    pub fn kind(&self) -> IdleKind
        ensures { result ≡ self.now }
    {
        self.kind
    }
}
