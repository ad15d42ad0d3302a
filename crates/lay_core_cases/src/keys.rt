//! Keys of cells, as a case names them and as a core does.

use lay_case_reading::{Key, Phase};
use lay_context::Phase as CellPhase;
use lay_shape::CellKey;

/// The core's key of a cell.
pub(crate) fn cell_key(key: Key) -> CellKey {
    let phase = match key.phase {
        Phase::Measure => CellPhase::Measure,
        Phase::Size => CellPhase::Size,
        Phase::Place => CellPhase::Place,
    };
    CellKey {
        node: key.node,
        phase,
    }
}

/// The key as a case names it.
pub(crate) fn key_of(key: CellKey) -> Key {
    let phase = match key.phase {
        CellPhase::Measure => Phase::Measure,
        CellPhase::Size => Phase::Size,
        CellPhase::Place => Phase::Place,
    };
    Key {
        node: key.node,
        phase,
    }
}
