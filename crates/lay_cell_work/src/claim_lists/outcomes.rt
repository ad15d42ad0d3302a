//! What comes of the claims of a list.

ghost use Rattle.std.specs.Prelude.{◌≡◌, ◌≤◌, length, option_map, slice_get};

use crate::claim_lists::outcome::Outcome;
use std::marker::Model;

/// At most 64 outcomes, in the order of the claims that they are of.
#[derive(Drop)]
pub struct Outcomes {
    outcomes: Vec<Outcome>,
}

impl Model for Outcomes {
    ghost use Rattle.std.specs.Prelude.{◌≤◌, List, length};
    ghost use Rattle.lay_cell_work.specs.declared.claim_lists.outcome.Outcome.{Outcome};

    ghost Value = { List Outcome };

    ghost view = { λ o. o.outcomes.items };

    ghost invariant = { λ o. length o.outcomes.items ≤ 64 };
}

impl Outcomes {
    /// These.
    pub fn new(outcomes: Vec<Outcome>) -> Outcomes
        requires { length outcomes.items ≤ 64 }
        ensures { result ≡ outcomes.items }
    {
        Outcomes { outcomes }
    }

    /// How many there are.
    pub fn len(&self) -> usize
        ensures len { result ≡ length self.now }
        ensures few { result ≤ 64 }
    {
        self.outcomes.len()
    }

    /// The outcome at a place; none past the last one.
    pub fn at(&self, place: usize) -> Option<&Outcome>
        ensures { option_map (λ o. o.now) result ≡ slice_get self.now place }
    {
        self.outcomes.get(place)
    }

    /// The outcomes, to be looked at.
    pub fn as_slice(&self) -> &[Outcome]
        ensures outcomes { result.now ≡ self.now }
        ensures few { length result.now ≤ 64 }
    {
        self.outcomes.as_slice()
    }

    /// The outcomes, in their order.
    pub fn into_vec(self) -> Vec<Outcome>
        ensures outcomes { result.items ≡ self }
        ensures few { length self ≤ 64 }
    {
        self.outcomes
    }
}
