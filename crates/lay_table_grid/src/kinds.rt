//! What the kind of a box says of it in a table (CSS 2.2, 17.2).

ghost use Rattle.std.specs.Prelude.{◌≡◌, ◌≤◌};
ghost use Rattle.lay_table_grid.specs.TableBoxes.{is_column_kind, is_column_group_kind, is_footer_group};
ghost use Rattle.lay_table_grid.specs.TableBoxes.{is_header_group, is_row_kind, is_row_group_kind, is_table_kind};
ghost use Rattle.lay_table_grid.specs.TableBoxes.{kind_at, span_of};

use lay_box_tree::{BoxKind, BoxNode};
use lay_grid::Span;

pub fn is_table(kind: &BoxKind) -> bool
    ensures { result ≡ is_table_kind kind.now }
{
    matches!(kind, BoxKind::Table)
}

pub fn is_header_group(kind: &BoxKind) -> bool
    ensures { result ≡ is_header_group kind.now }
{
    matches!(kind, BoxKind::HeaderGroup)
}

pub fn is_footer_group(kind: &BoxKind) -> bool
    ensures { result ≡ is_footer_group kind.now }
{
    matches!(kind, BoxKind::FooterGroup)
}

/// Whether it is a row group, of any of the three kinds.
pub fn is_row_group(kind: &BoxKind) -> bool
    ensures { result ≡ is_row_group_kind kind.now }
{
    matches!(
        kind,
        BoxKind::RowGroup | BoxKind::HeaderGroup | BoxKind::FooterGroup
    )
}

pub fn is_row(kind: &BoxKind) -> bool
    ensures { result ≡ is_row_kind kind.now }
{
    matches!(kind, BoxKind::Row)
}

pub fn is_column(kind: &BoxKind) -> bool
    ensures { result ≡ is_column_kind kind.now }
{
    matches!(kind, BoxKind::Column { .. })
}

pub fn is_column_group(kind: &BoxKind) -> bool
    ensures { result ≡ is_column_group_kind kind.now }
{
    matches!(kind, BoxKind::ColumnGroup { .. })
}

/// What a cell spans, at least one row and one column.
pub fn span_of(kind: &BoxKind) -> Span
    ensures value { result ≡ span_of kind.now }
    ensures rows { 1 ≤ result.rows }
    ensures columns { 1 ≤ result.columns }
{
    match kind {
        BoxKind::Cell { colspan, rowspan } => Span {
            columns: (*colspan).max(1),
            rows: (*rowspan).max(1),
        },
        _ => Span {
            columns: 1,
            rows: 1,
        },
    }
}

/// Whether the box at a place is a row group.
pub fn is_row_group_at(boxes: &[BoxNode], place: usize) -> bool
    ensures { result ≡ is_row_group_kind (kind_at boxes.now place) }
{
    match boxes.get(place) {
        Some(node) => is_row_group(&node.kind),
        None => false,
    }
}

/// Whether the box at a place is a column.
pub fn is_column_at(boxes: &[BoxNode], place: usize) -> bool
    ensures { result ≡ is_column_kind (kind_at boxes.now place) }
{
    match boxes.get(place) {
        Some(node) => is_column(&node.kind),
        None => false,
    }
}

/// Whether the box at a place is a column group.
pub fn is_column_group_at(boxes: &[BoxNode], place: usize) -> bool
    ensures { result ≡ is_column_group_kind (kind_at boxes.now place) }
{
    match boxes.get(place) {
        Some(node) => is_column_group(&node.kind),
        None => false,
    }
}
