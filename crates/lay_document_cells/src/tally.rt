//! How often outcomes of claims were answered each way.

ghost use Rattle.std.specs.Prelude.{◌≡◌, ◌+◌, ◌-◌, ◌<◌, ◌^◌};
ghost use Rattle.lay_document_cells.specs.Outcomes.{tallied, finished, no_answers, released, tally_sum};

use lay_cells::{Finished, Released};
use std::marker::Model;

/// How many outcomes `finish_all` answered in each way. No other call makes one.
#[derive(Drop)]
pub struct Tally {
    cleaned: u32,
    stored: u32,
    superseded: u32,
    gone: u32,
    back: u32,
}

impl Model for Tally {
    ghost use Rattle.lay_document_cells.specs.Outcomes.{Tally as Plain};

    ghost Value = { Plain };

    ghost view = { λ t. record { cleaned = t.cleaned; stored = t.stored; superseded = t.superseded; gone = t.gone; back = t.back } };
}

impl Tally {
    /// Of no outcomes.
    pub(crate) fn new() -> Tally
        ensures { result ≡ no_answers }
    {
        Tally {
            cleaned: 0,
            stored: 0,
            superseded: 0,
            gone: 0,
            back: 0,
        }
    }

    /// Counts what finished work was answered.
    pub(crate) fn count_finished(&mut self, answer: Finished)
        requires { tally_sum self.old < 2 ^ 32 - 1 }
        ensures counted { self.new ≡ tallied self.old (finished answer) }
        ensures sum { tally_sum self.new ≡ tally_sum self.old + 1 }
    {
        match answer {
            Finished::Cleaned => self.cleaned += 1,
            Finished::Stored => self.stored += 1,
            Finished::Superseded(_) => self.superseded += 1,
            Finished::Gone => self.gone += 1,
        }
    }

    /// Counts what a claim that came back was answered.
    pub(crate) fn count_released(&mut self, answer: Released)
        requires { tally_sum self.old < 2 ^ 32 - 1 }
        ensures counted { self.new ≡ tallied self.old (released answer) }
        ensures sum { tally_sum self.new ≡ tally_sum self.old + 1 }
    {
        match answer {
            Released::Released => self.back += 1,
            Released::Superseded(_) => self.superseded += 1,
            Released::Gone => self.gone += 1,
        }
    }

    /// How many values were kept, whose cells are clean.
    pub fn cleaned(&self) -> u32
        ensures { result ≡ self.now.cleaned }
    {
        self.cleaned
    }

    /// How many values were kept, whose cells stayed dirty since they were marked after the claim.
    pub fn stored(&self) -> u32
        ensures { result ≡ self.now.stored }
    {
        self.stored
    }

    /// How many outcomes came of a claim after which another one came.
    pub fn superseded(&self) -> u32
        ensures { result ≡ self.now.superseded }
    {
        self.superseded
    }

    /// How many outcomes came of a claim of a cell that is no longer there.
    pub fn gone(&self) -> u32
        ensures { result ≡ self.now.gone }
    {
        self.gone
    }

    /// How many claims came back and were closed.
    pub fn back(&self) -> u32
        ensures { result ≡ self.now.back }
    {
        self.back
    }
}
