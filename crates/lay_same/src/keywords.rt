//! Whether two keywords are the same.

ghost use Rattle.std.specs.Prelude.{◌≡◌, ◌↔◌, IsTrue};

use lay_style::{
    BorderCollapse, BorderStyle, CaptionSide, Clear, Display, EmptyCells, Float, Overflow,
    Position, TableLayout, TextAlign, Visibility, WhiteSpace,
};

pub(crate) fn same_display(a: Display, b: Display) -> bool
    ensures { IsTrue result ↔ (a ≡ b) }
{
    a == b
}

pub(crate) fn same_position(a: Position, b: Position) -> bool
    ensures { IsTrue result ↔ (a ≡ b) }
{
    a == b
}

pub(crate) fn same_float(a: Float, b: Float) -> bool
    ensures { IsTrue result ↔ (a ≡ b) }
{
    a == b
}

pub(crate) fn same_clear(a: Clear, b: Clear) -> bool
    ensures { IsTrue result ↔ (a ≡ b) }
{
    a == b
}

pub(crate) fn same_border_style(a: BorderStyle, b: BorderStyle) -> bool
    ensures { IsTrue result ↔ (a ≡ b) }
{
    a == b
}

pub(crate) fn same_overflow(a: Overflow, b: Overflow) -> bool
    ensures { IsTrue result ↔ (a ≡ b) }
{
    a == b
}

pub(crate) fn same_visibility(a: Visibility, b: Visibility) -> bool
    ensures { IsTrue result ↔ (a ≡ b) }
{
    a == b
}

pub(crate) fn same_text_align(a: TextAlign, b: TextAlign) -> bool
    ensures { IsTrue result ↔ (a ≡ b) }
{
    a == b
}

pub(crate) fn same_white_space(a: WhiteSpace, b: WhiteSpace) -> bool
    ensures { IsTrue result ↔ (a ≡ b) }
{
    a == b
}

pub(crate) fn same_table_layout(a: TableLayout, b: TableLayout) -> bool
    ensures { IsTrue result ↔ (a ≡ b) }
{
    a == b
}

pub(crate) fn same_border_collapse(a: BorderCollapse, b: BorderCollapse) -> bool
    ensures { IsTrue result ↔ (a ≡ b) }
{
    a == b
}

pub(crate) fn same_caption_side(a: CaptionSide, b: CaptionSide) -> bool
    ensures { IsTrue result ↔ (a ≡ b) }
{
    a == b
}

pub(crate) fn same_empty_cells(a: EmptyCells, b: EmptyCells) -> bool
    ensures { IsTrue result ↔ (a ≡ b) }
{
    a == b
}
