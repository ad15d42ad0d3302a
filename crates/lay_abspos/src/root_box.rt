//! The root's own box.

ghost use Rattle.std.specs.Prelude.{◌≡◌, ◌-ℤ◌};
ghost use Rattle.lay_units.specs.Units.{IsUsed, IsUsedSize, IsBoxSize};
ghost use Rattle.lay_sizes.specs.BoxSizes.{border_width};
ghost use Rattle.lay_sizes.specs.SizeBounds.{SizeFits};
ghost use Rattle.lay_abspos.specs.ViewportBounds.{ViewportFits};
ghost use Rattle.lay_abspos.specs.OneProof.{SizeFits-prop};
ghost use Rattle.lay_abspos.specs.StandInputs.{IsRootEdge};

use lay_sizes::{BoxSizes, ContainingBlock, border_width};
use lay_units::Unit;

/// The used sizes of the root's own box, and the viewport, which is its containing block.
#[derive(Clone, Copy)]
pub(crate) struct RootBox {
    pub viewport: ContainingBlock,
    pub sizes: BoxSizes,
    ghost viewport_fits: { ViewportFits viewport },
    ghost sizes_fit: { SizeFits sizes } by { SizeFits-prop sizes },
}

impl RootBox {
    /// Its left border edge where it stands at the right edge of the viewport.
    pub(crate) fn left_of_right(&self) -> Unit
        ensures left { result
            ≡ record { 0 = self.now.viewport.width.0 -ℤ self.now.sizes.widths.margin_right.0 -ℤ border_width self.now.sizes } }
        ensures bounds { IsRootEdge result.0 }
    {
        let margin = self.sizes.widths.margin_right;
        left_of_right(self.viewport.width, margin, self.border_width())
    }

    /// The width of its border box.
    fn border_width(&self) -> Unit
        ensures value { result ≡ record { 0 = border_width self.now.sizes } }
        ensures size { IsBoxSize result.0 }
    {
        border_width(&self.sizes)
    }
}

/// The left border edge of a box that stands at the right edge of a viewport.
fn left_of_right(viewport: Unit, margin: Unit, width: Unit) -> Unit
    requires viewport { IsUsedSize viewport.0 }
    requires margin { IsUsed margin.0 }
    requires width { IsBoxSize width.0 }
    ensures left { result ≡ record { 0 = viewport.0 -ℤ margin.0 -ℤ width.0 } }
    ensures bounds { IsRootEdge result.0 }
{
    Unit(viewport.0 - margin.0 - width.0)
}
