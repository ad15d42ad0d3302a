//! Keys of the cells of a core: `PHASE NODE`, where the phase is `Measure`, `Size` or `Place`.

use crate::words::{first, node};
use lay_doc::NodeId;
use lay_units::NoMemory;
use std::alloc::Global;

/// A phase of a layout, by its name alone.
#[derive(Clone, Copy)]
pub enum Phase {
    Measure,
    Size,
    Place,
}

/// The key of a cell.
#[derive(Clone, Copy)]
pub struct Key {
    pub node: NodeId,
    pub phase: Phase,
}

impl Key {
    /// The key of a text; None where it is none.
    pub fn read(text: &str) -> Option<Key> {
        let (phase, text) = first(text);
        let node = node(text)?;
        let phase = Phase::read(phase)?;
        Some(Key { node, phase })
    }

    /// The key as a text.
    pub fn text(self, alloc: Global) -> Result<String, NoMemory> {
        Ok(format!(in alloc; "{} {}", self.phase.name(), self.node.0)?)
    }
}

impl Phase {
    fn read(word: &str) -> Option<Phase> {
        match word {
            "Measure" => Some(Phase::Measure),
            "Size" => Some(Phase::Size),
            "Place" => Some(Phase::Place),
            _ => None,
        }
    }

    fn name(self) -> &'static str {
        match self {
            Phase::Measure => "Measure",
            Phase::Size => "Size",
            Phase::Place => "Place",
        }
    }
}
