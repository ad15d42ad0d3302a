//! What has borders in a table, and those borders as they come into a conflict (CSS 2.2, 17.6.2.1).

ghost use Rattle.std.specs.Prelude.{◌≡◌, ◌++◌, slice_get, IfSome, OnOk};
ghost use Rattle.lay_units.specs.Units.{IsUsedSize};
ghost use Rattle.lay_style.specs.LengthValues.{size_of};
ghost use Rattle.lay_table_grid.specs.MeetingBorders.{border_of, border_of_box, border_on};
ghost use Rattle.lay_table_grid.specs.MeetingBorders.{cell_element, conflict_style, cell_box_place};
ghost use Rattle.lay_table_grid.specs.MeetingBorders.{style_on, width_on};
ghost use Rattle.lay_table_grid.specs.Pass.EdgeBounds.{IsBorderCounted};

use crate::placed::PlacedCell;
use lay_borders::{BorderStyle, Cand, Origin};
use lay_box_tree::BoxNode;
use lay_style::{BorderStyle as ComputedBorderStyle, Style, size_of};
use lay_units::{NoMemory, Unit};

/// A side of a box.
#[derive(Clone, Copy, Debug, PartialEq, Eq)]
pub enum Side {
    Top,
    Right,
    Bottom,
    Left,
}

/// A cell, a row, a row group, a column, a column group or the table: the place of its box, which of
/// these it is, and its first row and column.
#[derive(Clone, Copy)]
pub struct Element {
    pub place: usize,
    pub origin: Origin,
    pub row: u32,
    pub column: u32,
}

/// The element of a cell.
pub fn cell_element(cell: Option<PlacedCell>) -> Option<Element>
    requires { IfSome cell IsBorderCounted }
    ensures { result ≡ cell_element cell }
{
    let placed = cell?;
    Some(Element {
        place: placed.place,
        origin: Origin::Cell,
        row: placed.cell.area.row as u32,
        column: placed.cell.left as u32,
    })
}

/// The place of a cell's box.
pub fn place_of(cell: Option<PlacedCell>) -> Option<usize>
    ensures { result ≡ cell_box_place cell }
{
    Some(cell?.place)
}

/// Adds the border of an element on a side to others, if there is such an element.
pub fn push_border(
    borders: &mut Vec<Cand>,
    boxes: &[BoxNode],
    side: Side,
    element: Option<Element>,
) -> Result<(), NoMemory>
    ensures { OnOk result (borders.new.items ≡ borders.old.items ++ border_of boxes.now side element) }
{
    match element {
        Some(element) => push_own_border(borders, boxes, side, element),
        None => Ok(()),
    }
}

fn push_own_border(
    borders: &mut Vec<Cand>,
    boxes: &[BoxNode],
    side: Side,
    element: Element,
) -> Result<(), NoMemory>
    ensures { OnOk result (borders.new.items ≡ borders.old.items ++ border_of_box side element (slice_get boxes.now element.place)) }
{
    match boxes.get(element.place) {
        Some(node) => Ok(borders.push(border_on(side, element, &node.style))?),
        None => Ok(()),
    }
}

fn border_on(side: Side, element: Element, style: &Style) -> Cand
    ensures { result ≡ border_on side element style.now }
{
    Cand {
        style: style_on(side, style),
        width: width_on(side, style),
        origin: element.origin,
        row: element.row,
        column: element.column,
    }
}

fn style_on(side: Side, style: &Style) -> BorderStyle
    ensures { result ≡ style_on side style.now }
{
    let styles = style.border.style;
    conflict_style(match side {
        Side::Top => styles.top,
        Side::Right => styles.right,
        Side::Bottom => styles.bottom,
        Side::Left => styles.left,
    })
}

/// The used width of the border of a style on a side.
pub fn width_on(side: Side, style: &Style) -> Unit
    ensures value { result ≡ width_on side style.now }
    ensures size { IsUsedSize result.0 }
{
    let widths = style.border.width;
    size_of(match side {
        Side::Top => widths.top,
        Side::Right => widths.right,
        Side::Bottom => widths.bottom,
        Side::Left => widths.left,
    })
}

fn conflict_style(style: ComputedBorderStyle) -> BorderStyle
    ensures { result ≡ conflict_style style }
{
    match style {
        ComputedBorderStyle::None => BorderStyle::None,
        ComputedBorderStyle::Hidden => BorderStyle::Hidden,
        ComputedBorderStyle::Dotted => BorderStyle::Dotted,
        ComputedBorderStyle::Dashed => BorderStyle::Dashed,
        ComputedBorderStyle::Solid => BorderStyle::Solid,
        ComputedBorderStyle::Double => BorderStyle::Double,
        ComputedBorderStyle::Groove => BorderStyle::Groove,
        ComputedBorderStyle::Ridge => BorderStyle::Ridge,
        ComputedBorderStyle::Inset => BorderStyle::Inset,
        ComputedBorderStyle::Outset => BorderStyle::Outset,
    }
}
