//! What a pass over the blocks of a context keeps.

ghost use Rattle.std.specs.Prelude.{◌≡◌};
ghost use Rattle.lay_flow.specs.Pass.Bounds.{is_hanging, position_of};

use crate::placement::Placing;
use crate::used_strut::UsedStrut;
use lay_units::Unit;

/// The columns as far as they are known, and the run of margins that the pass is in.
#[derive(Drop)]
pub(crate) struct Pass {
    pub marks: Vec<Unit>,
    pub heights: Vec<Unit>,
    /// The boxes that are known to be collapsed through.
    pub through: Vec<bool>,
    /// The clear edges of the boxes that have clearance, as far as it is decided.
    pub clear_edges: Vec<Option<Unit>>,
    pub start: RunStart,
    /// The margins of the run so far.
    pub strut: UsedStrut,
    /// The first box whose top margin is in the run. The boxes from there on wait for their marks.
    pub first: usize,
    /// The floats and the solid boxes.
    pub placing: Placing,
}

/// Where a run of margins starts.
#[derive(Clone, Copy)]
pub(crate) enum RunStart {
    /// At this position.
    At(Unit),
    /// The run was begun by clearance of its first box, which is open, and hangs from this clear edge: it ends there,
    /// or, if the box comes out as collapsed through, starts above that.
    HangsFrom(Unit),
}

impl RunStart {
    /// The position, or the clear edge.
    pub(crate) fn position(self) -> Unit
        ensures { result.0 ≡ position_of self }
    {
        match self {
            RunStart::At(start) => start,
            RunStart::HangsFrom(edge) => edge,
        }
    }

    /// Whether it hangs.
    pub(crate) fn is_hanging(self) -> bool
        ensures { result ≡ is_hanging self }
    {
        match self {
            RunStart::At(_) => false,
            RunStart::HangsFrom(_) => true,
        }
    }
}
