//! The used sizes of the boxes of cells.

ghost use Rattle.std.specs.Prelude.{◌≡◌, ◌-ℤ◌};
ghost use Rattle.lay_sizes.specs.SizeBounds.{IsInset, SizeFits};
ghost use Rattle.lay_table_sizes.specs.CellSizes.{IsCellSized, cell_insets, content_width};

use crate::cell_size::CellSize;
use crate::table_box::together;
use lay_sizes::{BoxSizes, ContainingBlock, edge_of, used_height};
use lay_style::Style;
use lay_units::{Sides, Unit, clamp_size};
use lay_widths::BlockOut;

/// The used sizes of a cell's own box (CSS 2.2, 17.5.2 and 17.5.3), beside the content box of its table box. The height is as
/// given, auto where it depends on what is in the cell.
pub fn cell_sizes(containing: ContainingBlock, cell: CellSize, style: &Style) -> BoxSizes
    ensures sized { IsCellSized containing cell style.now result }
    ensures fits { SizeFits result }
{
    let edges = cell_insets(containing, cell, style);
    BoxSizes {
        containing: containing.width,
        widths: BlockOut {
            margin_left: Unit(0),
            width: content_width(cell, edges),
            margin_right: Unit(0),
        },
        edges,
        margin_top: Unit(0),
        margin_bottom: Unit(0),
        height: used_height(containing.height, style.sizing.height),
        min_height: Unit(0),
        max_height: None,
    }
}

/// Its borders and paddings.
fn cell_insets(containing: ContainingBlock, cell: CellSize, style: &Style) -> Sides
    ensures value { result ≡ cell_insets containing cell style.now }
    ensures top { IsInset result.top.0 }
    ensures right { IsInset result.right.0 }
    ensures bottom { IsInset result.bottom.0 }
    ensures left { IsInset result.left.0 }
{
    let width = containing.width;
    Sides {
        top: edge_of(width, cell.borders.top, style.padding.top),
        right: edge_of(width, cell.borders.right, style.padding.right),
        bottom: edge_of(width, cell.borders.bottom, style.padding.bottom),
        left: edge_of(width, cell.borders.left, style.padding.left),
    }
}

/// What these edges leave of its border box, if anything.
fn content_width(cell: CellSize, edges: Sides) -> Unit
    requires left { IsInset edges.left.0 }
    requires right { IsInset edges.right.0 }
    ensures { result.0 ≡ content_width cell edges }
{
    clamp_size(difference(cell.width, together(edges.left, edges.right)))
}

fn difference(a: Unit, b: Unit) -> i128
    ensures { result ≡ a.0 -ℤ b.0 }
{
    i128::from(a.0) - i128::from(b.0)
}
