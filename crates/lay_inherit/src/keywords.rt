//! The computed values of the properties that have keywords alone (CSS 2.2, 6.1.2): their keywords.

ghost use Rattle.std.specs.Prelude.{◌≡◌};
ghost use Rattle.lay_style.specs.KeywordValues.{display_of, position_of, float_of, clear_of, border_style_of};
ghost use Rattle.lay_style.specs.KeywordValues.{overflow_of, visibility_of, text_align_of, white_space_of};
ghost use Rattle.lay_style.specs.KeywordValues.{table_layout_of, border_collapse_of, caption_side_of, empty_cells_of};

use lay_style::{
    BorderCollapse, BorderStyle, CaptionSide, Clear, Display, EmptyCells, Float, Given, Overflow,
    Position, TableLayout, TextAlign, Visibility, WhiteSpace, Word,
};

/// `display` (CSS 2.2, 9.2.4), before 9.7 changes it.
pub(crate) fn display_of(given: Given) -> Display
    ensures { result ≡ display_of given }
{
    match given {
        Given::Keyword(Word::Block) => Display::Block,
        Given::Keyword(Word::ListItem) => Display::ListItem,
        Given::Keyword(Word::InlineBlock) => Display::InlineBlock,
        Given::Keyword(Word::Table) => Display::Table,
        Given::Keyword(Word::InlineTable) => Display::InlineTable,
        Given::Keyword(Word::TableRowGroup) => Display::TableRowGroup,
        Given::Keyword(Word::TableHeaderGroup) => Display::TableHeaderGroup,
        Given::Keyword(Word::TableFooterGroup) => Display::TableFooterGroup,
        Given::Keyword(Word::TableRow) => Display::TableRow,
        Given::Keyword(Word::TableColumnGroup) => Display::TableColumnGroup,
        Given::Keyword(Word::TableColumn) => Display::TableColumn,
        Given::Keyword(Word::TableCell) => Display::TableCell,
        Given::Keyword(Word::TableCaption) => Display::TableCaption,
        Given::Keyword(Word::None) => Display::None,
        _ => Display::Inline,
    }
}

/// `position` (9.3.1).
pub(crate) fn position_of(given: Given) -> Position
    ensures { result ≡ position_of given }
{
    match given {
        Given::Keyword(Word::Relative) => Position::Relative,
        Given::Keyword(Word::Absolute) => Position::Absolute,
        Given::Keyword(Word::Fixed) => Position::Fixed,
        _ => Position::Static,
    }
}

/// `float` (9.5.1).
pub(crate) fn float_of(given: Given) -> Float
    ensures { result ≡ float_of given }
{
    match given {
        Given::Keyword(Word::Left) => Float::Left,
        Given::Keyword(Word::Right) => Float::Right,
        _ => Float::None,
    }
}

/// `clear` (9.5.2).
pub(crate) fn clear_of(given: Given) -> Clear
    ensures { result ≡ clear_of given }
{
    match given {
        Given::Keyword(Word::Left) => Clear::Left,
        Given::Keyword(Word::Right) => Clear::Right,
        Given::Keyword(Word::Both) => Clear::Both,
        _ => Clear::None,
    }
}

/// The style of a border (8.5.3).
pub(crate) fn border_style_of(given: Given) -> BorderStyle
    ensures { result ≡ border_style_of given }
{
    match given {
        Given::Keyword(Word::Hidden) => BorderStyle::Hidden,
        Given::Keyword(Word::Dotted) => BorderStyle::Dotted,
        Given::Keyword(Word::Dashed) => BorderStyle::Dashed,
        Given::Keyword(Word::Solid) => BorderStyle::Solid,
        Given::Keyword(Word::Double) => BorderStyle::Double,
        Given::Keyword(Word::Groove) => BorderStyle::Groove,
        Given::Keyword(Word::Ridge) => BorderStyle::Ridge,
        Given::Keyword(Word::Inset) => BorderStyle::Inset,
        Given::Keyword(Word::Outset) => BorderStyle::Outset,
        _ => BorderStyle::None,
    }
}

/// `overflow` (11.1.1).
pub(crate) fn overflow_of(given: Given) -> Overflow
    ensures { result ≡ overflow_of given }
{
    match given {
        Given::Keyword(Word::Hidden) => Overflow::Hidden,
        Given::Keyword(Word::Scroll) => Overflow::Scroll,
        Given::Keyword(Word::Auto) => Overflow::Auto,
        _ => Overflow::Visible,
    }
}

/// `visibility` (11.2).
pub(crate) fn visibility_of(given: Given) -> Visibility
    ensures { result ≡ visibility_of given }
{
    match given {
        Given::Keyword(Word::Hidden) => Visibility::Hidden,
        Given::Keyword(Word::Collapse) => Visibility::Collapse,
        _ => Visibility::Visible,
    }
}

/// `text-align` (16.2).
pub(crate) fn text_align_of(given: Given) -> TextAlign
    ensures { result ≡ text_align_of given }
{
    match given {
        Given::Keyword(Word::Right) => TextAlign::Right,
        Given::Keyword(Word::Center) => TextAlign::Center,
        Given::Keyword(Word::Justify) => TextAlign::Justify,
        _ => TextAlign::Left,
    }
}

/// `white-space` (16.6).
pub(crate) fn white_space_of(given: Given) -> WhiteSpace
    ensures { result ≡ white_space_of given }
{
    match given {
        Given::Keyword(Word::Pre) => WhiteSpace::Pre,
        Given::Keyword(Word::Nowrap) => WhiteSpace::Nowrap,
        Given::Keyword(Word::PreWrap) => WhiteSpace::PreWrap,
        Given::Keyword(Word::PreLine) => WhiteSpace::PreLine,
        _ => WhiteSpace::Normal,
    }
}

/// `table-layout` (17.5.2).
pub(crate) fn table_layout_of(given: Given) -> TableLayout
    ensures { result ≡ table_layout_of given }
{
    match given {
        Given::Keyword(Word::Fixed) => TableLayout::Fixed,
        _ => TableLayout::Auto,
    }
}

/// `border-collapse` (17.6).
pub(crate) fn border_collapse_of(given: Given) -> BorderCollapse
    ensures { result ≡ border_collapse_of given }
{
    match given {
        Given::Keyword(Word::Collapse) => BorderCollapse::Collapse,
        _ => BorderCollapse::Separate,
    }
}

/// `caption-side` (17.4.1).
pub(crate) fn caption_side_of(given: Given) -> CaptionSide
    ensures { result ≡ caption_side_of given }
{
    match given {
        Given::Keyword(Word::Bottom) => CaptionSide::Bottom,
        _ => CaptionSide::Top,
    }
}

/// `empty-cells` (17.6.1.1).
pub(crate) fn empty_cells_of(given: Given) -> EmptyCells
    ensures { result ≡ empty_cells_of given }
{
    match given {
        Given::Keyword(Word::Hide) => EmptyCells::Hide,
        _ => EmptyCells::Show,
    }
}
