//! The borders of a box by its style alone (CSS 2.2, 17.6.1).

ghost use Rattle.std.specs.Prelude.{◌≡◌, slice_get};
ghost use Rattle.lay_table_grid.specs.UsedSides.{AreUsedSides};
ghost use Rattle.lay_table_grid.specs.TableBorders.{own_borders};

use crate::elements::{Side, width_on};
use lay_box_tree::BoxNode;
use lay_units::{Sides, Unit};

/// No borders.
pub const NO_BORDERS: Sides = Sides {
    top: Unit(0),
    right: Unit(0),
    bottom: Unit(0),
    left: Unit(0),
};

/// The used widths of the borders of the box at a place by its style alone (CSS 2.2, 17.6.1), in 1/64 px, from 0.
pub fn own_borders(boxes: &[BoxNode], place: usize) -> Sides
    ensures borders { result ≡ own_borders (slice_get boxes.now place) }
    ensures used { AreUsedSides result }
{
    match boxes.get(place) {
        Some(node) => Sides {
            top: width_on(Side::Top, &node.style),
            right: width_on(Side::Right, &node.style),
            bottom: width_on(Side::Bottom, &node.style),
            left: width_on(Side::Left, &node.style),
        },
        None => NO_BORDERS,
    }
}
