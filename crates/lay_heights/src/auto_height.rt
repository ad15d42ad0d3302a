//! Auto heights.

ghost use Rattle.std.specs.Prelude.{◌≡◌, ◌-ℤ◌, IfSome};
ghost use Rattle.lay_units.specs.Units.{clamp_size_of, IsPosition, IsUsedSize};
ghost use Rattle.lay_heights.specs.AutoHeights.{EndsFit, auto_height_of, root_height_of};

use lay_units::{Unit, clamp_size};

/// Where the content of a block in flow begins, and where it may end. All are positions in 1/64 px,
/// downward.
#[derive(Clone, Copy, Debug, PartialEq, Eq)]
pub struct FlowEnds {
    /// The top edge of the content.
    pub top: Unit,
    /// The bottom edge of the last line box, where the block has lines.
    pub line: Option<Unit>,
    /// The bottom edge of the bottom margin of the last child in flow, collapsed, where it doesn't
    /// collapse with the block's own.
    pub margin: Option<Unit>,
    /// The bottom border edge of the last child in flow whose top margin doesn't collapse with the
    /// block's bottom margin.
    pub border: Option<Unit>,
}

/// The auto height of a block in flow whose overflow is visible, from 0 to 2^31: it reaches from the
/// top of the content to the first of the ends that applies, and is zero where none does
/// (CSS 2.2, 10.6.3).
pub fn auto_height_flow(ends: &FlowEnds) -> Unit
    requires fit { EndsFit ends.now }
    ensures value { result.0 ≡ clamp_size_of (auto_height_of ends.now) }
    ensures size { IsUsedSize result.0 }
{
    match ends.line.or(ends.margin).or(ends.border) {
        Some(end) => height_between(ends.top, end),
        None => Unit(0),
    }
}

/// The auto height of the root of a block formatting context, from 0 to 2^31: to the end of its last
/// line or of its last margin, and at least to the bottom margin edge of its floats
/// (CSS 2.2, 10.6.7).
pub fn auto_height_root(top: Unit, end: Unit, floats: Option<Unit>) -> Unit
    requires top { IsPosition top.0 }
    requires end { IsPosition end.0 }
    requires floats { IfSome floats (λ v. IsPosition v.0) }
    ensures value { result.0 ≡ clamp_size_of (root_height_of top end floats) }
    ensures size { IsUsedSize result.0 }
{
    match floats {
        Some(floats) => height_between(top, end.max(floats)),
        None => height_between(top, end),
    }
}

fn height_between(top: Unit, bottom: Unit) -> Unit
    requires top { IsPosition top.0 }
    requires bottom { IsPosition bottom.0 }
    ensures value { result.0 ≡ clamp_size_of (bottom.0 -ℤ top.0) }
    ensures size { IsUsedSize result.0 }
{
    clamp_size(i128::from(distance(top, bottom)))
}

fn distance(from: Unit, to: Unit) -> i64
    requires from { IsPosition from.0 }
    requires to { IsPosition to.0 }
    ensures { result ≡ to.0 -ℤ from.0 }
{
    to.0 - from.0
}
