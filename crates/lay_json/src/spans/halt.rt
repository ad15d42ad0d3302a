//! Why a text isn't read value by value.

use lay_units::NoMemory;
use std::alloc::{AllocError, AllocFailed};

/// Why a text isn't read value by value.
#[derive(Clone, Copy, Debug, PartialEq, Eq)]
pub enum Halt {
    /// The text may be no JSON, or it has a form that isn't read so.
    Doubt,
    /// Memory ran out.
    NoMemory,
}

impl From<AllocError> for Halt {
    fn from(_: AllocError) -> Halt {
        Halt::NoMemory
    }
}

impl<T: Drop> From<AllocFailed<T>> for Halt {
    fn from(_: AllocFailed<T>) -> Halt {
        Halt::NoMemory
    }
}

impl From<NoMemory> for Halt {
    fn from(_: NoMemory) -> Halt {
        Halt::NoMemory
    }
}
