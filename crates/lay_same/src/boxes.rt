//! Whether two boxes are the same.

ghost use Rattle.std.specs.Prelude.{◌≡◌, ◌↔◌, IsTrue};
ghost use Rattle.lay_box_tree.specs.declared.box_tree.BoxKind.TheVariants.{Cell, Column, ColumnGroup, Replaced, Text as text_kind};

use crate::style::same_style;
use lay_box_tree::{BoxKind, BoxNode, Flow};
use lay_units::{Text, Unit};

/// Whether two lists of boxes are the same, in their order.
pub fn same_boxes(a: &[BoxNode], b: &[BoxNode]) -> bool
    ensures { IsTrue result ↔ (a.now ≡ b.now) }
{
    if a.len() != b.len() {
        return false;
    }
    for k in 0..a.len() {
        if !same_box(&a[k], &b[k]) {
            return false;
        }
    }
    true
}

/// Whether two boxes are the same.
pub fn same_box(a: &BoxNode, b: &BoxNode) -> bool
    ensures { IsTrue result ↔ (a.now ≡ b.now) }
{
    a.node.0 == b.node.0
        && a.parent == b.parent
        && same_flow(a.flow, b.flow)
        && a.anonymous == b.anonymous
        && a.inner == b.inner
        && same_kind(&a.kind, &b.kind)
        && same_style(&a.style, &b.style)
}

fn same_flow(a: Flow, b: Flow) -> bool
    ensures { IsTrue result ↔ (a ≡ b) }
{
    a == b
}

/// Whether two boxes are of the same kind, with the same text, size and spans.
pub fn same_kind(a: &BoxKind, b: &BoxKind) -> bool
    ensures { IsTrue result ↔ (a.now ≡ b.now) }
{
    match a {
        BoxKind::Block => matches!(b, BoxKind::Block),
        BoxKind::InlineBlock => matches!(b, BoxKind::InlineBlock),
        BoxKind::Inline => matches!(b, BoxKind::Inline),
        BoxKind::Text(text) => is_text_of(b, text),
        BoxKind::Replaced { w, h, inline } => is_replaced_of(b, *w, *h, *inline),
        BoxKind::Wrapper => matches!(b, BoxKind::Wrapper),
        BoxKind::InlineWrapper => matches!(b, BoxKind::InlineWrapper),
        BoxKind::Table => matches!(b, BoxKind::Table),
        BoxKind::Caption => matches!(b, BoxKind::Caption),
        BoxKind::RowGroup => matches!(b, BoxKind::RowGroup),
        BoxKind::HeaderGroup => matches!(b, BoxKind::HeaderGroup),
        BoxKind::FooterGroup => matches!(b, BoxKind::FooterGroup),
        BoxKind::Row => matches!(b, BoxKind::Row),
        BoxKind::ColumnGroup { span } => is_column_group_of(b, *span),
        BoxKind::Column { span } => is_column_of(b, *span),
        BoxKind::Cell { colspan, rowspan } => is_cell_of(b, *colspan, *rowspan),
        BoxKind::Anchor => matches!(b, BoxKind::Anchor),
    }
}

fn is_text_of(kind: &BoxKind, text: &Text) -> bool
    ensures { IsTrue result ↔ (text_kind text.now ≡ kind.now) }
{
    match kind {
        BoxKind::Text(other) => same_text(text, other),
        _ => false,
    }
}

fn is_replaced_of(kind: &BoxKind, width: Unit, height: Unit, is_inline: bool) -> bool
    ensures { IsTrue result ↔ (Replaced width height is_inline ≡ kind.now) }
{
    match kind {
        BoxKind::Replaced { w, h, inline } => {
            width.0 == w.0 && height.0 == h.0 && is_inline == *inline
        }
        _ => false,
    }
}

fn is_column_group_of(kind: &BoxKind, columns: u32) -> bool
    ensures { IsTrue result ↔ (ColumnGroup columns ≡ kind.now) }
{
    match kind {
        BoxKind::ColumnGroup { span } => columns == *span,
        _ => false,
    }
}

fn is_column_of(kind: &BoxKind, columns: u32) -> bool
    ensures { IsTrue result ↔ (Column columns ≡ kind.now) }
{
    match kind {
        BoxKind::Column { span } => columns == *span,
        _ => false,
    }
}

fn is_cell_of(kind: &BoxKind, columns: u32, rows: u32) -> bool
    ensures { IsTrue result ↔ (Cell columns rows ≡ kind.now) }
{
    match kind {
        BoxKind::Cell { colspan, rowspan } => columns == *colspan && rows == *rowspan,
        _ => false,
    }
}

/// Whether two texts have the same bytes.
pub fn same_text(a: &Text, b: &Text) -> bool
    ensures { IsTrue result ↔ (a.now ≡ b.now) }
{
    a.as_str() == b.as_str()
}
