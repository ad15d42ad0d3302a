//! Lists of claims.

ghost use Rattle.std.specs.Prelude.{◌≡◌, ◌<◌, ◌≤◌, ◌++◌, ◌∷◌, [], length, option_map, slice_get, IfOk};

use crate::Claim;
use lay_units::NoMemory;
use std::alloc::Global;
use std::marker::Model;

/// At most 64 claims, in order, and room for so many in all.
#[derive(Drop)]
pub struct ClaimList {
    claims: Vec<Claim>,
    room: u32,
}

impl Model for ClaimList {
    ghost use Rattle.std.specs.Prelude.{◌≤◌, length, vec_capacity};
    ghost use Rattle.lay_cell_work.specs.ClaimLists.ClaimLists.{ClaimList as Plain};

    ghost Value = { Plain };

    ghost view = { λ l. record { claims = l.claims.items; room = l.room } };

    ghost invariant = { λ l. (length l.claims.items ≤ l.room) × (l.room ≤ vec_capacity l.claims) × (l.room ≤ 64) };
}

impl ClaimList {
    /// The empty list, with room for so many.
    pub fn with_room(alloc: Global, room: u32) -> Result<ClaimList, NoMemory>
        requires { room ≤ 64 }
        ensures { IfOk result (λ l. l ≡ record { claims = []; room = room }) }
    {
        let claims = Vec::with_capacity(alloc, room as usize)?;
        Ok(ClaimList { claims, room })
    }

    /// Adds a claim behind the others. Within its room the list needs no memory.
    pub fn push(&mut self, claim: Claim)
        requires { length self.old.claims < self.old.room }
        ensures { self.new ≡ record { claims = self.old.claims ++ claim ∷ []; room = self.old.room } }
    {
        self.claims.push_reserved(claim);
    }

    /// How many claims it has.
    pub fn len(&self) -> usize
        ensures len { result ≡ length self.now.claims }
        ensures few { (result ≤ self.now.room) × (self.now.room ≤ 64) }
    {
        self.claims.len()
    }

    /// For how many it has room in all.
    pub fn room(&self) -> u32
        ensures room { result ≡ self.now.room }
        ensures few { (length self.now.claims ≤ result) × (result ≤ 64) }
    {
        self.room
    }

    /// The claim at a place; none past the last one.
    pub fn at(&self, place: usize) -> Option<&Claim>
        ensures { option_map (λ c. c.now) result ≡ slice_get self.now.claims place }
    {
        self.claims.get(place)
    }

    /// The claims, to be looked at.
    pub fn as_slice(&self) -> &[Claim]
        ensures claims { result.now ≡ self.now.claims }
        ensures few { length result.now ≤ 64 }
    {
        self.claims.as_slice()
    }

    /// The claims, in their order.
    pub fn into_vec(self) -> Vec<Claim>
        ensures claims { result.items ≡ self.claims }
        ensures few { length self.claims ≤ 64 }
    {
        self.claims
    }
}
