//! Gates of runs.

use crate::turn_gate::TurnGate;
use lay_outside::{Gate, MeetGate, Point};

/// The gate of a run.
#[derive(Drop)]
pub(crate) enum CaseGate {
    /// Has editors take turns.
    Turns(TurnGate),
    /// Holds a thread at a point until another one was reached.
    Meet(MeetGate),
}

impl CaseGate {
    /// Whether a thread that was held went on because the other point was reached; None where none is held.
    pub(crate) fn met(&self) -> Option<bool> {
        match self {
            CaseGate::Turns(_) => None,
            CaseGate::Meet(gate) => Some(gate.met()),
        }
    }
}

impl Gate for CaseGate {
    fn at(&self, point: Point) {
        match self {
            CaseGate::Turns(gate) => gate.at(point),
            CaseGate::Meet(gate) => gate.at(point),
        }
    }
}
