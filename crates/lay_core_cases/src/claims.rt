//! The claims that a case holds: each that was granted, to the end.

use crate::keys::key_of;
use crate::said;
use lay_case_reading::{Said, Taken};
use lay_cell_work::Claim;
use lay_cell_work::claim_lists::{ClaimList, Outcome};
use lay_core::{Answer, IdleKind, Next};
use lay_units::NoMemory;
use std::alloc::Global;

/// The claims that were granted, in order.
#[derive(Drop)]
pub(crate) struct Claims {
    held: Vec<Claim>,
}

impl Claims {
    pub(crate) fn new(alloc: Global) -> Claims {
        Claims {
            held: Vec::new(alloc),
        }
    }

    /// Holds a claim, and shows it.
    fn granted(&mut self, claim: Claim) -> Result<Said, NoMemory> {
        let said = Said::Granted(key_of(claim.key()), claim.number());
        self.held.push(claim)?;
        Ok(said)
    }

    /// An answer to a claim; one that is granted is held.
    pub(crate) fn answered(&mut self, answer: Answer) -> Result<Said, NoMemory> {
        match answer {
            Answer::Granted(claim) => self.granted(claim),
            Answer::Reused => Ok(Said::Word("reused")),
            Answer::Clean => Ok(Said::Word("clean")),
            Answer::Waiting(need) => Ok(Said::Keyed("waiting", key_of(need))),
            Answer::Taken(number) => Ok(Said::Numbered("taken", number)),
            Answer::Gone => Ok(Said::Word("gone")),
            Answer::Spent => Ok(Said::Word("spent")),
            Answer::NoMemory => Ok(Said::LACKS),
        }
    }

    /// An answer to one who asks for the next claim; one that is granted is held.
    pub(crate) fn next(&mut self, answer: Next) -> Result<Said, NoMemory> {
        match answer {
            Next::Granted(claim) => self.granted(claim),
            Next::Settled => Ok(said::idle(IdleKind::Settled)),
            Next::Busy(number) => Ok(said::idle(IdleKind::Busy(number))),
            Next::Spent => Ok(said::idle(IdleKind::Spent)),
            Next::NoMemory => Ok(Said::LACKS),
        }
    }

    /// Holds the claims of a list, and shows them.
    pub(crate) fn all_granted(&mut self, alloc: Global, list: ClaimList) -> Result<Said, NoMemory> {
        let mut text = String::new(alloc);
        for claim in list.into_vec() {
            let comma = if text.is_empty() { "" } else { ", " };
            text.push_str(comma)?;
            text.push_str(self.granted(claim)?.text(alloc)?.as_str())?;
        }
        Ok(Said::Text(text))
    }

    /// The claim of this number once more, or under another number.
    pub(crate) fn again(&self, number: u64, under: u64) -> Result<Option<Claim>, NoMemory> {
        for claim in self.held.iter() {
            if claim.number() == number {
                let input = claim.input().clone()?;
                return Ok(Some(Claim::new(claim.key(), under, input)));
            }
        }
        Ok(None)
    }

    /// The outcomes of these claims; None where one was not granted.
    pub(crate) fn outcomes(
        &self,
        alloc: Global,
        all: &[Taken],
    ) -> Result<Option<Vec<Outcome>>, NoMemory> {
        let mut outcomes = Vec::new(alloc);
        for taken in all {
            match self.again(taken.number, taken.number)? {
                Some(claim) => outcomes.push(outcome(alloc, claim, taken.is_back))?,
                None => return Ok(None),
            }
        }
        Ok(Some(outcomes))
    }
}

/// What a claim comes to, or the claim itself where it comes back.
fn outcome(alloc: Global, claim: Claim, is_back: bool) -> Outcome {
    if is_back {
        return Outcome::NoMemory(claim);
    }
    match claim.compute(alloc) {
        Ok(done) => Outcome::Done(done),
        Err(claim) => Outcome::NoMemory(claim),
    }
}
