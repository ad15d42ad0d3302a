//! Keywords.

ghost use Rattle.std.specs.Prelude.{◌≡◌};
ghost use Rattle.std.specs.Str.{str_eq_ignore_ascii_case};
ghost use Rattle.lay_values.specs.Words.{word_name, first_letter, beginning_with, word_of, keyword_of};

use lay_style::{Given, Word};

/// The keyword as the standard writes it.
fn word_name(word: Word) -> &'static str
    ensures { result.now ≡ word_name word }
{
    match word {
        Word::Inline => "inline",
        Word::Block => "block",
        Word::ListItem => "list-item",
        Word::InlineBlock => "inline-block",
        Word::Table => "table",
        Word::InlineTable => "inline-table",
        Word::TableRowGroup => "table-row-group",
        Word::TableHeaderGroup => "table-header-group",
        Word::TableFooterGroup => "table-footer-group",
        Word::TableRow => "table-row",
        Word::TableColumnGroup => "table-column-group",
        Word::TableColumn => "table-column",
        Word::TableCell => "table-cell",
        Word::TableCaption => "table-caption",
        Word::None => "none",
        Word::Static => "static",
        Word::Relative => "relative",
        Word::Absolute => "absolute",
        Word::Fixed => "fixed",
        Word::Left => "left",
        Word::Right => "right",
        Word::Both => "both",
        Word::Auto => "auto",
        Word::Thin => "thin",
        Word::Medium => "medium",
        Word::Thick => "thick",
        Word::Hidden => "hidden",
        Word::Dotted => "dotted",
        Word::Dashed => "dashed",
        Word::Solid => "solid",
        Word::Double => "double",
        Word::Groove => "groove",
        Word::Ridge => "ridge",
        Word::Inset => "inset",
        Word::Outset => "outset",
        Word::Visible => "visible",
        Word::Scroll => "scroll",
        Word::XxSmall => "xx-small",
        Word::XSmall => "x-small",
        Word::Small => "small",
        Word::Large => "large",
        Word::XLarge => "x-large",
        Word::XxLarge => "xx-large",
        Word::Larger => "larger",
        Word::Smaller => "smaller",
        Word::Normal => "normal",
        Word::Center => "center",
        Word::Justify => "justify",
        Word::Pre => "pre",
        Word::Nowrap => "nowrap",
        Word::PreWrap => "pre-wrap",
        Word::PreLine => "pre-line",
        Word::Baseline => "baseline",
        Word::Sub => "sub",
        Word::Super => "super",
        Word::Top => "top",
        Word::TextTop => "text-top",
        Word::Middle => "middle",
        Word::Bottom => "bottom",
        Word::TextBottom => "text-bottom",
        Word::Separate => "separate",
        Word::Collapse => "collapse",
        Word::Show => "show",
        Word::Hide => "hide",
    }
}

/// The small letter that a text begins with; 0 where it is empty.
fn first_letter(text: &[u8]) -> u8
    ensures { result ≡ first_letter text.now }
{
    match text {
        [] => 0,
        [first, ..] => first.to_ascii_lowercase(),
    }
}

/// The keywords that begin with this letter, but `inherit`.
fn beginning_with(letter: u8) -> &'static [Word]
    ensures { result.now ≡ beginning_with letter }
{
    match letter {
        b'a' => &[Word::Absolute, Word::Auto],
        b'b' => &[Word::Block, Word::Both, Word::Baseline, Word::Bottom],
        b'c' => &[Word::Center, Word::Collapse],
        b'd' => &[Word::Dotted, Word::Dashed, Word::Double],
        b'f' => &[Word::Fixed],
        b'g' => &[Word::Groove],
        b'h' => &[Word::Hidden, Word::Hide],
        b'i' => &[
            Word::Inline,
            Word::InlineBlock,
            Word::InlineTable,
            Word::Inset,
        ],
        b'j' => &[Word::Justify],
        b'l' => &[Word::ListItem, Word::Left, Word::Large, Word::Larger],
        b'm' => &[Word::Medium, Word::Middle],
        b'n' => &[Word::None, Word::Normal, Word::Nowrap],
        b'o' => &[Word::Outset],
        b'p' => &[Word::Pre, Word::PreWrap, Word::PreLine],
        b'r' => &[Word::Relative, Word::Right, Word::Ridge],
        b's' => &[
            Word::Static,
            Word::Solid,
            Word::Scroll,
            Word::Small,
            Word::Smaller,
            Word::Sub,
            Word::Super,
            Word::Separate,
            Word::Show,
        ],
        b't' => &[
            Word::Table,
            Word::TableRowGroup,
            Word::TableHeaderGroup,
            Word::TableFooterGroup,
            Word::TableRow,
            Word::TableColumnGroup,
            Word::TableColumn,
            Word::TableCell,
            Word::TableCaption,
            Word::Thin,
            Word::Thick,
            Word::Top,
            Word::TextTop,
            Word::TextBottom,
        ],
        b'v' => &[Word::Visible],
        b'x' => &[Word::XxSmall, Word::XSmall, Word::XLarge, Word::XxLarge],
        _ => &[],
    }
}

/// Whether a text spells this word, in any case of its letters.
#[tactic(auto, using(crate::proofs::Narrowed::same_spelled))]
pub(crate) fn is_spelled(text: &[u8], word: &str) -> bool
    ensures { result ≡ str_eq_ignore_ascii_case word.now text.now }
{
    // Most are written as the standard writes them.
    if word.as_bytes() == text {
        return true;
    }
    word.as_bytes().eq_ignore_ascii_case(text)
}

/// The keyword that a text spells, in any case.
fn word_of(text: &[u8]) -> Option<Word>
    ensures { result ≡ word_of text.now }
{
    let words = beginning_with(first_letter(text));
    for word in words {
        if is_spelled(text, word_name(*word)) {
            return Some(*word);
        }
    }
    None
}

/// The value of a keyword, `inherit` among them.
pub(crate) fn keyword_of(text: &[u8]) -> Option<Given>
    ensures { result ≡ keyword_of text.now }
{
    if is_spelled(text, "inherit") {
        return Some(Given::Inherit);
    }
    Some(Given::Keyword(word_of(text)?))
}
