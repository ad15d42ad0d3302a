//! How claims, what comes of them and what is made of that are written.

use lay_cell_work::Claim;
use lay_cell_work::claim_lists::Outcome;
use lay_context::Phase;
use lay_core::{Idle, IdleKind, Tally};
use lay_shape::CellKey;
use lay_units::NoMemory;
use std::alloc::Global;

pub(crate) fn key(alloc: Global, key: CellKey) -> Result<String, NoMemory> {
    let phase = match key.phase {
        Phase::Measure => "Measure",
        Phase::Size => "Size",
        Phase::Place => "Place",
    };
    Ok(format!(in alloc; "{phase} {}", key.node.0)?)
}

/// Claims as `10 Measure 3, 11 Measure 2`.
pub(crate) fn claims(alloc: Global, claims: &[Claim]) -> Result<String, NoMemory> {
    let mut text = String::new(alloc);
    for claim in claims {
        let blank = if text.is_empty() { "" } else { ", " };
        write!(
            text,
            "{blank}{} {}",
            claim.number(),
            key(alloc, claim.key())?
        )?;
    }
    Ok(text)
}

/// The claims that outcomes are of, in the same form.
pub(crate) fn outcomes(alloc: Global, outcomes: &[Outcome]) -> Result<String, NoMemory> {
    let mut text = String::new(alloc);
    for outcome in outcomes {
        let blank = if text.is_empty() { "" } else { ", " };
        let (number, of) = match outcome {
            Outcome::Done(done) => (done.number(), done.key()),
            Outcome::NoMemory(claim) => (claim.number(), claim.key()),
        };
        write!(text, "{blank}{number} {}", key(alloc, of)?)?;
    }
    Ok(text)
}

/// The answer of a call that lacks memory.
pub(crate) fn lacks(alloc: Global) -> Result<String, NoMemory> {
    Ok(String::from_str(alloc, "no memory")?)
}

pub(crate) fn idle(alloc: Global, idle: &Idle) -> Result<String, NoMemory> {
    match idle.kind() {
        IdleKind::Settled => Ok(String::from_str(alloc, "settled")?),
        IdleKind::Busy(number) => Ok(format!(in alloc; "busy {number}")?),
        IdleKind::Spent => Ok(String::from_str(alloc, "spent")?),
    }
}

/// A tally as `cleaned 2, gone 1`, without what there is none of.
pub(crate) fn tally(alloc: Global, tally: &Tally) -> Result<String, NoMemory> {
    let mut text = String::new(alloc);
    put(&mut text, "cleaned", tally.cleaned())?;
    put(&mut text, "stored", tally.stored())?;
    put(&mut text, "superseded", tally.superseded())?;
    put(&mut text, "gone", tally.gone())?;
    put(&mut text, "back", tally.back())?;
    Ok(text)
}

fn put(text: &mut String, name: &str, count: u32) -> Result<(), NoMemory> {
    if count > 0 {
        let blank = if text.is_empty() { "" } else { ", " };
        write!(text, "{blank}{name} {count}")?;
    }
    Ok(())
}
