//! White space in one text (CSS 2.2, 16.6.1).

ghost use Rattle.std.specs.Prelude.{◌≡◌};
ghost use Rattle.std.specs.List.{list_all, list_any};
ghost use Rattle.lay_boxgen.specs.WhiteSpace.{is_white_byte, is_linefeed_byte, is_carriage_return, space_collapses, white_form, text_form};

use crate::facts::TextForm;
use lay_style::WhiteSpace;

/// Whether all bytes of a text are spaces, tabs, line feeds or carriage returns.
pub fn is_white(bytes: &[u8]) -> bool
    ensures { result ≡ list_all is_white_byte bytes.now }
{
    bytes
        .iter()
        .all(|byte| matches!(*byte, b' ' | b'\t' | b'\n' | b'\r'))
}

fn has_linefeed(bytes: &[u8]) -> bool
    ensures { result ≡ list_any is_linefeed_byte bytes.now }
{
    bytes.iter().any(|byte| *byte == b'\n')
}

fn has_carriage_return(bytes: &[u8]) -> bool
    ensures { result ≡ list_any is_carriage_return bytes.now }
{
    bytes.iter().any(|byte| *byte == b'\r')
}

/// Whether white space with or without linefeeds and carriage returns is collapsed away.
fn collapses(mode: WhiteSpace, has_linefeed: bool, has_return: bool) -> bool
    ensures { result ≡ space_collapses mode has_linefeed has_return }
{
    match mode {
        WhiteSpace::Normal | WhiteSpace::Nowrap => has_linefeed || !has_return,
        WhiteSpace::PreLine => !has_linefeed && !has_return,
        WhiteSpace::Pre | WhiteSpace::PreWrap => false,
    }
}

/// What is seen of white space alone.
fn white_form(mode: WhiteSpace, bytes: &[u8]) -> TextForm
    ensures { result ≡ white_form mode bytes.now }
{
    let has_linefeed = has_linefeed(bytes);
    let has_return = has_carriage_return(bytes);
    if collapses(mode, has_linefeed, has_return) {
        TextForm::Blank
    } else {
        TextForm::White
    }
}

/// What is seen of a text under this value of `white-space`.
pub fn text_form(mode: WhiteSpace, text: &str) -> TextForm
    ensures { result ≡ text_form mode text.now }
{
    let bytes = text.as_bytes();
    if is_white(bytes) {
        white_form(mode, bytes)
    } else {
        TextForm::Seen
    }
}
