//! What a line has from its container.

ghost use Rattle.std.specs.Prelude.{◌≡◌};
ghost use Rattle.lay_units.specs.Units.{IsPosition};
ghost use Rattle.lay_lines.specs.Content.Pens.{strut_height};

use lay_units::{Unit, plus};

/// How far something reaches above and below the baseline.
#[derive(Clone, Copy)]
pub struct Extent {
    pub above: Unit,
    pub below: Unit,
}

/// The content edges of the container, its strut, and `text-indent`, as long as no line was seen.
#[derive(Clone, Copy)]
pub struct Frame {
    pub left: Unit,
    pub right: Unit,
    pub strut: Extent,
    pub indent: Unit,
    /// The distance between tab stops; no tab has a width where it is 0.
    pub tab: Unit,
}

impl Frame {
    /// The height of the container's strut (CSS 2.2, 10.8.1), over which floats are beside a line, in 1/64 px.
    pub fn strut_height(&self) -> Unit
        requires { IsPosition (strut_height self.now) }
        ensures { result.0 ≡ strut_height self.now }
    {
        plus(self.strut.above, self.strut.below)
    }
}
