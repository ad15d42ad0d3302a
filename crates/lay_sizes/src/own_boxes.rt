//! How the own box of a context looks from outside.

ghost use Rattle.std.specs.Prelude.{◌≡◌, ◌+ℤ◌, IfSome};
ghost use Rattle.lay_units.specs.Units.{IsUsed, IsBoxSize};
ghost use Rattle.lay_sizes.specs.OwnBoxes.{IsBaseline, OwnBoxFits, margin_height, margin_width, margins_of, own_box};
ghost use Rattle.lay_sizes.specs.SizeBounds.{SizeFits};

use crate::sizing::{BoxSizes, border_width};
use lay_units::{Sides, Unit};

/// The own box of a context, as the context around it takes it, in 1/64 px.
#[derive(Clone, Copy)]
pub struct OwnBox {
    /// Its used margins.
    pub margin: Sides,
    /// The size of its border box.
    pub width: Unit,
    pub height: Unit,
    /// How far its baseline as an inline-block stands below the top of its border box (CSS 2.2, 10.8.1), at most 2^59
    /// from 0: that of its last line in flow. It has none where no line in flow is seen or its `overflow` isn't
    /// `visible`; then its bottom margin edge is on the baseline of its parent.
    pub baseline: Option<Unit>,
}

impl OwnBox {
    /// The width of its margin box.
    pub fn margin_width(&self) -> Unit
        requires { OwnBoxFits self.now }
        ensures { result ≡ record { 0 = margin_width self.now } }
    {
        around(self.margin.left, self.width, self.margin.right)
    }

    /// The height of its margin box.
    pub fn margin_height(&self) -> Unit
        requires { OwnBoxFits self.now }
        ensures { result ≡ record { 0 = margin_height self.now } }
    {
        around(self.margin.top, self.height, self.margin.bottom)
    }
}

/// A size of a border box with its margins.
fn around(before: Unit, size: Unit, after: Unit) -> Unit
    requires before { IsUsed before.0 }
    requires size { IsBoxSize size.0 }
    requires after { IsUsed after.0 }
    ensures { result ≡ record { 0 = before.0 +ℤ size.0 +ℤ after.0 } }
{
    Unit(before.0 + size.0 + after.0)
}

/// The box of a context of these used sizes, whose border box has this height and this baseline.
pub fn own_box(sizes: BoxSizes, height: Unit, baseline: Option<Unit>) -> OwnBox
    requires sizes { SizeFits sizes }
    requires height { IsBoxSize height.0 }
    requires baseline { IfSome baseline (λ b. IsBaseline b.0) }
    ensures value { result ≡ own_box sizes height baseline }
    ensures fits { OwnBoxFits result }
{
    OwnBox {
        margin: margins_of(sizes),
        width: border_width(&sizes),
        height,
        baseline,
    }
}

fn margins_of(sizes: BoxSizes) -> Sides
    ensures { result ≡ margins_of sizes }
{
    Sides {
        top: sizes.margin_top,
        right: sizes.widths.margin_right,
        bottom: sizes.margin_bottom,
        left: sizes.widths.margin_left,
    }
}

/// No box.
pub const NO_OWN_BOX: OwnBox = OwnBox {
    margin: Sides {
        top: Unit(0),
        right: Unit(0),
        bottom: Unit(0),
        left: Unit(0),
    },
    width: Unit(0),
    height: Unit(0),
    baseline: None,
};
