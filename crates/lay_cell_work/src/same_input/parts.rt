//! Whether two formatting contexts are measured or placed of the same.

ghost use Rattle.std.specs.Prelude.{◌≡◌, ◌↔◌, IsTrue};

use crate::same_input::shared_pieces::same_shared_pieces;
use crate::same_input::table_sizes::same_table_sizes;
use crate::same_input::widths::same_widths_list;
use lay_context::{FlowParts, MeasureParts, TableParts};
use lay_same::{same_boxes, same_height_rule, same_own_boxes, same_sizes};

/// Whether the preferred widths of two formatting contexts are worked out of the same.
pub fn same_measure_parts(a: &MeasureParts, b: &MeasureParts) -> bool
    ensures { IsTrue result ↔ (a.now ≡ b.now) }
{
    same_widths_list(a.inner(), b.inner())
        && same_boxes(a.boxes().as_slice(), b.boxes().as_slice())
        && a.face().is_same(b.face())
}

/// Whether two formatting contexts in block flow are placed of the same.
pub fn same_flow_parts(a: &FlowParts, b: &FlowParts) -> bool
    ensures { IsTrue result ↔ (a.now ≡ b.now) }
{
    same_height_rule(&a.own_height(), &b.own_height())
        && same_own_boxes(a.inner().as_slice(), b.inner().as_slice())
        && same_sizes(a.sizes().as_slice(), b.sizes().as_slice())
        && same_shared_pieces(a.pieces(), b.pieces())
        && same_boxes(a.boxes().as_slice(), b.boxes().as_slice())
        && a.face().is_same(b.face())
}

/// Whether two tables are placed of the same.
pub fn same_table_parts(a: &TableParts, b: &TableParts) -> bool
    ensures { IsTrue result ↔ (a.now ≡ b.now) }
{
    same_own_boxes(a.inner().as_slice(), b.inner().as_slice())
        && same_sizes(a.sizes().as_slice(), b.sizes().as_slice())
        && same_table_sizes(a.table(), b.table())
        && same_shared_pieces(a.pieces(), b.pieces())
        && same_boxes(a.boxes().as_slice(), b.boxes().as_slice())
}
