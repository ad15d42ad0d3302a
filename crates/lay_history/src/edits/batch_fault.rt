//! Why a list of edits is refused.

use lay_doc::EditFault;
use lay_units::NoMemory;

/// Why no edit of a list was applied.
#[derive(Clone, Copy, PartialEq, Eq)]
pub enum BatchFault {
    /// The edit at this place, counted from 0, has this fault after those before it, and none of those has one.
    At { place: u32, fault: EditFault },
    /// Memory ran out.
    NoMemory,
}

impl From<NoMemory> for BatchFault {
    ghost use Rattle.std.specs.Prelude.{◌≡◌};
    ghost use Rattle.lay_history.specs.declared.edits.batch_fault.BatchFault.TheVariants.{NoMemory as ran_out};

    ghost from_gives = { λ _ e. e ≡ ran_out };

    fn from(_: NoMemory) -> BatchFault {
        BatchFault::NoMemory
    }
}
