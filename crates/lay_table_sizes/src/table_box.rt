//! The table box beside the containing block of its wrapper.

ghost use Rattle.std.specs.Prelude.{◌≡◌, ◌<◌, ◌+ℤ◌, length};
ghost use Rattle.lay_units.specs.Units.{IsPosition, IsUsedSize};
ghost use Rattle.lay_box_tree.specs.BoxColumns.{style_of_box};
ghost use Rattle.lay_widths.specs.Lengths.{BlockFits};
ghost use Rattle.lay_sizes.specs.SizeBounds.{IsInset};
ghost use Rattle.lay_table_sizes.specs.TableBoxes.{inset, preferred_edges, preferred_padding, table_block, table_edges, table_padding};
ghost use Rattle.lay_table_sizes.specs.Bounds.{IsEdge};

use lay_box_tree::BoxNode;
use lay_measure::size_or_zero;
use lay_sizes::{used_limit, used_margin, used_size, used_width};
use lay_style::{LengthPercentage, Style};
use lay_table_grid::TableGrid;
use lay_units::{BlockIn, Sides, Unit};

/// The style of the box at k.
pub(crate) fn style_of_box(boxes: &[BoxNode], k: usize) -> &Style
    requires { k < length boxes.now }
    ensures { result.now ≡ style_of_box boxes.now k }
{
    &boxes[k].style
}

/// What the width of a table depends on.
pub(crate) fn table_block(
    grid: &TableGrid,
    containing: Unit,
    wrapper: &Style,
    style: &Style,
) -> BlockIn
    requires { IsPosition containing.0 }
    ensures value { result ≡ table_block grid.now containing wrapper.now style.now }
    ensures fits { BlockFits result }
{
    let borders = grid.borders();
    BlockIn {
        containing_width: containing,
        margin_left: used_margin(containing, wrapper.margin.left),
        border_left: borders.left,
        padding_left: table_padding(grid, containing, style.padding.left),
        width: used_width(containing, style.sizing.width),
        padding_right: table_padding(grid, containing, style.padding.right),
        border_right: borders.right,
        margin_right: used_margin(containing, wrapper.margin.right),
        min_width: used_size(containing, style.sizing.min_width),
        max_width: used_limit(containing, style.sizing.max_width),
    }
}

/// The border and the padding of each side.
pub(crate) fn table_edges(grid: &TableGrid, containing: Unit, style: &Style) -> Sides
    ensures value { result ≡ table_edges grid.now containing style.now }
    ensures top { IsInset result.top.0 }
    ensures right { IsInset result.right.0 }
    ensures bottom { IsInset result.bottom.0 }
    ensures left { IsInset result.left.0 }
{
    let borders = grid.borders();
    let padding = &style.padding;
    Sides {
        top: inset(borders.top, table_padding(grid, containing, padding.top)),
        right: inset(
            borders.right,
            table_padding(grid, containing, padding.right),
        ),
        bottom: inset(
            borders.bottom,
            table_padding(grid, containing, padding.bottom),
        ),
        left: inset(borders.left, table_padding(grid, containing, padding.left)),
    }
}

fn table_padding(grid: &TableGrid, containing: Unit, padding: LengthPercentage) -> Unit
    ensures value { result ≡ table_padding grid.now containing padding }
    ensures size { IsUsedSize result.0 }
{
    if grid.collapses() {
        return Unit(0);
    }
    used_size(containing, padding)
}

/// A border and a padding.
pub(crate) fn inset(border: Unit, padding: Unit) -> Unit
    requires border { IsUsedSize border.0 }
    requires padding { IsUsedSize padding.0 }
    ensures value { result ≡ inset border padding }
    ensures fits { IsInset result.0 }
{
    Unit(border.0 + padding.0)
}

/// The borders and paddings of both sides.
pub(crate) fn together(left: Unit, right: Unit) -> Unit
    requires left { IsInset left.0 }
    requires right { IsInset right.0 }
    ensures value { result.0 ≡ left.0 +ℤ right.0 }
    ensures fits { IsEdge result.0 }
{
    Unit(left.0 + right.0)
}

/// The borders and paddings of the left and the right side, of which percentages are 0.
pub(crate) fn preferred_edges(grid: &TableGrid, style: &Style) -> Unit
    ensures value { result.0 ≡ preferred_edges grid.now style.now }
    ensures fits { IsEdge result.0 }
{
    let borders = grid.borders();
    let left = preferred_padding(grid, style.padding.left);
    let right = preferred_padding(grid, style.padding.right);
    together(inset(borders.left, left), inset(borders.right, right))
}

fn preferred_padding(grid: &TableGrid, padding: LengthPercentage) -> Unit
    ensures value { result ≡ preferred_padding grid.now padding }
    ensures size { IsUsedSize result.0 }
{
    if grid.collapses() {
        return Unit(0);
    }
    size_or_zero(padding)
}
