//! White space of one text that collapses, character by character.

ghost use Rattle.std.specs.Prelude.{
  ◌≡◌,
  IfSome,
  ◌∷◌,
  ◌++◌,
  option_to_list,
  true,
  false,
  chars,
  encode_utf8_all,
  string_bytes,
  IfOk,
  OnOk,
  map,
};
ghost use Rattle.lay_space.specs.CleanTexts.{IsClean};
ghost use Rattle.lay_space.specs.WhiteSpace.{
  is_blank,
  runs_to_linefeed,
  strip,
  as_space,
  squeeze,
  left_over,
  ends_in_space,
};

use crate::item::Mode;
use lay_units::NoMemory;
use std::alloc::Global;

/// What is left of a text, and whether what follows it stands after a collapsible space.
#[derive(Drop)]
pub struct Left {
    pub text: String,
    pub after_space: bool,
}

/// What is left of a text that collapses, of which `after_space` says whether it stands after a
/// collapsible space.
pub fn collapsed(alloc: Global, mode: Mode, text: &str, after_space: bool) -> Result<Left, NoMemory>
    ensures text { IfOk result (λ l. string_bytes l.text
        ≡ encode_utf8_all (left_over mode false after_space (chars text.now))) }
    ensures space { IfOk result (λ l. l.after_space
        ≡ ends_in_space after_space (left_over mode false after_space (chars text.now))) }
{
    match clean(text.as_bytes(), after_space) {
        Some(after_space) => Ok(Left {
            text: String::from_str(alloc, text)?,
            after_space,
        }),
        None => collapsed_by_character(alloc, mode, text, after_space),
    }
}

/// Where white space processing leaves a text that collapses as it is, whether what follows stands after a space. None also
/// where that isn't seen at a look.
fn clean(text: &[u8], after_space: bool) -> Option<bool>
    ensures { IfSome result (λ space. IsClean after_space text.now × (space
        ≡ ends_in_space after_space text.now)) }
{
    let mut space = after_space;
    for k in 0..text.len() {
        let byte = text[k];
        if byte > 127 || byte == b'\t' || byte == b'\n' || byte == b'\r' {
            return None;
        }
        if space && byte == b' ' {
            return None;
        }
        space = byte == b' ';
    }
    Some(space)
}

fn collapsed_by_character(
    alloc: Global,
    mode: Mode,
    text: &str,
    after_space: bool,
) -> Result<Left, NoMemory>
    ensures text { IfOk result (λ l. string_bytes l.text
        ≡ encode_utf8_all (left_over mode false after_space (chars text.now))) }
    ensures space { IfOk result (λ l. l.after_space
        ≡ ends_in_space after_space (left_over mode false after_space (chars text.now))) }
{
    let mut kept = String::new(alloc);
    let mut state = State {
        after_linefeed: false,
        after_space,
        row: None,
    };
    let mut rest = text.chars();
    while let Some(c) = rest.next() {
        let turn = next_turn(mode, c, rest.as_str(), state);
        keep(&mut kept, turn.kept)?;
        state = turn.next;
    }
    Ok(Left {
        text: kept,
        after_space: state.after_space,
    })
}

/// What is known between two characters: whether the row of blanks here began after a linefeed, whether a
/// space stands before, and, in a row, whether it runs up to a linefeed. So a row is looked through once.
#[derive(Clone, Copy)]
struct State {
    after_linefeed: bool,
    after_space: bool,
    row: Option<bool>,
}

/// What one character leaves, and what is known after it.
#[derive(Clone, Copy)]
struct Turned {
    kept: Option<char>,
    next: State,
}

fn next_turn(mode: Mode, c: char, rest: &str, state: State) -> Turned
    requires row { IfSome state.row (λ b. runs_to_linefeed (c ∷ chars rest.now) ≡ b) }
    ensures left { left_over mode state.after_linefeed state.after_space (c ∷ chars rest.now)
        ≡ option_to_list result.kept ++ left_over mode result.next.after_linefeed
        result.next.after_space (chars rest.now) }
    ensures space { ends_in_space state.after_space
        (left_over mode state.after_linefeed state.after_space (c ∷ chars rest.now))
        ≡ ends_in_space result.next.after_space
        (left_over mode result.next.after_linefeed result.next.after_space (chars rest.now)) }
    ensures row { IfSome result.next.row (λ b. runs_to_linefeed (chars rest.now) ≡ b) }
{
    if !is_blank(c) {
        let next = State {
            after_linefeed: c == '\n',
            after_space: state.after_space,
            row: None,
        };
        return squeezed(mode, c, rest, next);
    }
    let drops = row_drops(c, rest, state);
    let next = State {
        after_linefeed: state.after_linefeed,
        after_space: state.after_space,
        row: Some(drops),
    };
    if state.after_linefeed || drops {
        return Turned { kept: None, next };
    }
    squeezed(mode, c, rest, next)
}

fn row_drops(c: char, rest: &str, state: State) -> bool
    requires blank { is_blank c ≡ true }
    requires row { IfSome state.row (λ b. runs_to_linefeed (c ∷ chars rest.now) ≡ b) }
    ensures { result ≡ runs_to_linefeed (chars rest.now) }
{
    match state.row {
        Some(drops) => drops,
        None => runs_to_linefeed(rest),
    }
}

/// Whether the row of blanks at the head of this text runs up to a linefeed.
fn runs_to_linefeed(text: &str) -> bool
    ensures { result ≡ runs_to_linefeed (chars text.now) }
{
    for c in text.chars() {
        if !is_blank(c) {
            return c == '\n';
        }
    }
    false
}

/// A character that isn't removed next to a linefeed.
fn squeezed(mode: Mode, c: char, rest: &str, state: State) -> Turned
    requires row { IfSome state.row (λ b. runs_to_linefeed (chars rest.now) ≡ b) }
    ensures left { squeeze state.after_space (as_space mode c ∷ map (as_space mode)
        (strip state.after_linefeed (chars rest.now))) ≡ option_to_list result.kept ++ left_over mode
        result.next.after_linefeed result.next.after_space (chars rest.now) }
    ensures space { ends_in_space state.after_space (squeeze state.after_space
        (as_space mode c ∷ map (as_space mode) (strip state.after_linefeed (chars rest.now))))
        ≡ ends_in_space result.next.after_space
        (left_over mode result.next.after_linefeed result.next.after_space (chars rest.now)) }
    ensures row { IfSome result.next.row (λ b. runs_to_linefeed (chars rest.now) ≡ b) }
{
    let _ = rest;
    let c = as_space(mode, c);
    if state.after_space && c == ' ' {
        return Turned {
            kept: None,
            next: state,
        };
    }
    let next = State {
        after_linefeed: state.after_linefeed,
        after_space: c == ' ',
        row: state.row,
    };
    Turned {
        kept: Some(c),
        next,
    }
}

fn is_blank(c: char) -> bool
    ensures { result ≡ is_blank c }
{
    c == '\t' || c == '\r' || c == ' '
}

fn as_space(mode: Mode, c: char) -> char
    ensures { result ≡ as_space mode c }
{
    if c == '\t' {
        return ' ';
    }
    if mode.joins_lines() && c == '\n' {
        return ' ';
    }
    c
}

fn keep(text: &mut String, kept: Option<char>) -> Result<(), NoMemory>
    ensures { OnOk result (string_bytes text.new
        ≡ string_bytes text.old ++ encode_utf8_all (option_to_list kept)) }
{
    if let Some(c) = kept {
        text.push(c)?;
    }
    Ok(())
}
