//! The keywords that a property takes beside `inherit`, as `specs/Words.antt` has them.

ghost use Rattle.std.specs.Prelude.{◌≡◌};
ghost use Rattle.lay_style.specs.Words.{is_display, is_position, is_float, is_clear, is_auto, is_none, is_border_width, is_border_style};
ghost use Rattle.lay_style.specs.Words.{is_overflow, is_font_size, is_normal, is_text_align, is_white_space, is_vertical_align};
ghost use Rattle.lay_style.specs.Words.{is_table_layout, is_border_collapse, is_caption_side, is_visibility, is_empty_cells};

use crate::property::Word;

/// What `display` takes (CSS 2.2, 9.2.4).
pub fn is_display(word: Word) -> bool
    ensures { result ≡ is_display word }
{
    matches!(
        word,
        Word::Inline
            | Word::Block
            | Word::ListItem
            | Word::InlineBlock
            | Word::Table
            | Word::InlineTable
            | Word::TableRowGroup
            | Word::TableHeaderGroup
            | Word::TableFooterGroup
            | Word::TableRow
            | Word::TableColumnGroup
            | Word::TableColumn
            | Word::TableCell
            | Word::TableCaption
            | Word::None
    )
}

/// `position` (CSS 2.2, 9.3.1).
pub fn is_position(word: Word) -> bool
    ensures { result ≡ is_position word }
{
    matches!(
        word,
        Word::Static | Word::Relative | Word::Absolute | Word::Fixed
    )
}

/// `float` (CSS 2.2, 9.5.1).
pub fn is_float(word: Word) -> bool
    ensures { result ≡ is_float word }
{
    matches!(word, Word::None | Word::Left | Word::Right)
}

/// `clear` (CSS 2.2, 9.5.2).
pub fn is_clear(word: Word) -> bool
    ensures { result ≡ is_clear word }
{
    matches!(word, Word::None | Word::Left | Word::Right | Word::Both)
}

/// A size, a margin, an offset, `z-index`.
pub fn is_auto(word: Word) -> bool
    ensures { result ≡ is_auto word }
{
    matches!(word, Word::Auto)
}

/// `max-width` and `max-height` (CSS 2.2, 10.4, 10.7).
pub fn is_none(word: Word) -> bool
    ensures { result ≡ is_none word }
{
    matches!(word, Word::None)
}

/// A border's width (CSS 2.2, 8.5.1).
pub fn is_border_width(word: Word) -> bool
    ensures { result ≡ is_border_width word }
{
    matches!(word, Word::Thin | Word::Medium | Word::Thick)
}

/// A border's style (CSS 2.2, 8.5.3).
pub fn is_border_style(word: Word) -> bool
    ensures { result ≡ is_border_style word }
{
    matches!(
        word,
        Word::None
            | Word::Hidden
            | Word::Dotted
            | Word::Dashed
            | Word::Solid
            | Word::Double
            | Word::Groove
            | Word::Ridge
            | Word::Inset
            | Word::Outset
    )
}

/// `overflow` (CSS 2.2, 11.1.1).
pub fn is_overflow(word: Word) -> bool
    ensures { result ≡ is_overflow word }
{
    matches!(
        word,
        Word::Visible | Word::Hidden | Word::Scroll | Word::Auto
    )
}

/// `font-size` (CSS 2.2, 15.7).
pub fn is_font_size(word: Word) -> bool
    ensures { result ≡ is_font_size word }
{
    matches!(
        word,
        Word::XxSmall
            | Word::XSmall
            | Word::Small
            | Word::Medium
            | Word::Large
            | Word::XLarge
            | Word::XxLarge
            | Word::Larger
            | Word::Smaller
    )
}

/// `line-height`, `letter-spacing`, `word-spacing`.
pub fn is_normal(word: Word) -> bool
    ensures { result ≡ is_normal word }
{
    matches!(word, Word::Normal)
}

/// `text-align` (CSS 2.2, 16.2).
pub fn is_text_align(word: Word) -> bool
    ensures { result ≡ is_text_align word }
{
    matches!(
        word,
        Word::Left | Word::Right | Word::Center | Word::Justify
    )
}

/// `white-space` (CSS 2.2, 16.6).
pub fn is_white_space(word: Word) -> bool
    ensures { result ≡ is_white_space word }
{
    matches!(
        word,
        Word::Normal | Word::Pre | Word::Nowrap | Word::PreWrap | Word::PreLine
    )
}

/// `vertical-align` (CSS 2.2, 10.8.1).
pub fn is_vertical_align(word: Word) -> bool
    ensures { result ≡ is_vertical_align word }
{
    matches!(
        word,
        Word::Baseline
            | Word::Sub
            | Word::Super
            | Word::Top
            | Word::TextTop
            | Word::Middle
            | Word::Bottom
            | Word::TextBottom
    )
}

/// `table-layout` (CSS 2.2, 17.5.2).
pub fn is_table_layout(word: Word) -> bool
    ensures { result ≡ is_table_layout word }
{
    matches!(word, Word::Auto | Word::Fixed)
}

/// `border-collapse` (CSS 2.2, 17.6).
pub fn is_border_collapse(word: Word) -> bool
    ensures { result ≡ is_border_collapse word }
{
    matches!(word, Word::Collapse | Word::Separate)
}

/// `caption-side` (CSS 2.2, 17.4.1).
pub fn is_caption_side(word: Word) -> bool
    ensures { result ≡ is_caption_side word }
{
    matches!(word, Word::Top | Word::Bottom)
}

/// `visibility` (CSS 2.2, 11.2).
pub fn is_visibility(word: Word) -> bool
    ensures { result ≡ is_visibility word }
{
    matches!(word, Word::Visible | Word::Hidden | Word::Collapse)
}

/// `empty-cells` (CSS 2.2, 17.6.1.1).
pub fn is_empty_cells(word: Word) -> bool
    ensures { result ≡ is_empty_cells word }
{
    matches!(word, Word::Show | Word::Hide)
}
