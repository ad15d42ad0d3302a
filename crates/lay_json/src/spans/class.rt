//! Bytes of a JSON text, and where a scan stands in it.

ghost use Rattle.std.specs.Prelude.{◌≡◌};
ghost use Rattle.json.specs.Word.{is_operator, is_space};
ghost use Rattle.json.specs.Lex.{class, in_string};
ghost use Rattle.lay_json.specs.Spans.Modes.{behind_byte, is_closed};
ghost use Rattle.lay_json.specs.Spans.Scans.{class_of, mode_of};

/// What a byte is to the scan.
#[derive(Clone, Copy)]
pub(crate) enum Class {
    Quote,
    Backslash,
    Operator,
    Space,
    Other,
}

/// Where the scan stands.
#[derive(Clone, Copy)]
pub(crate) enum Mode {
    Between,
    InWord,
    InString,
    InEscape,
}

fn is_operator(c: u8) -> bool
    ensures { result ≡ is_operator c }
{
    c == b'{' || c == b'}' || c == b'[' || c == b']' || c == b':' || c == b','
}

pub(crate) fn is_space(c: u8) -> bool
    ensures { result ≡ is_space c }
{
    c == b' ' || c == b'\t' || c == b'\n' || c == b'\r'
}

fn class_of(c: u8) -> Class
    ensures { class_of result ≡ class c }
{
    if c == b'"' {
        Class::Quote
    } else if c == b'\\' {
        Class::Backslash
    } else if is_operator(c) {
        Class::Operator
    } else if is_space(c) {
        Class::Space
    } else {
        Class::Other
    }
}

/// Where the scan stands after a byte of this class.
fn behind_byte(mode: Mode, class: Class) -> Mode
    ensures { mode_of result ≡ behind_byte (mode_of mode) (class_of class) }
{
    match mode {
        Mode::Between => match class {
            Class::Quote => Mode::InString,
            Class::Operator => Mode::Between,
            Class::Space => Mode::Between,
            Class::Backslash => Mode::InWord,
            Class::Other => Mode::InWord,
        },
        Mode::InWord => match class {
            Class::Operator => Mode::Between,
            Class::Space => Mode::Between,
            Class::Quote => Mode::InWord,
            Class::Backslash => Mode::InWord,
            Class::Other => Mode::InWord,
        },
        Mode::InString => match class {
            Class::Quote => Mode::Between,
            Class::Backslash => Mode::InEscape,
            Class::Operator => Mode::InString,
            Class::Space => Mode::InString,
            Class::Other => Mode::InString,
        },
        Mode::InEscape => Mode::InString,
    }
}

/// Where the scan stands after one more byte of a string.
#[tactic(auto, using(crate::proofs::SpansLemmas::Fronts::string_byte))]
fn in_string(byte: u8) -> Mode
    ensures { mode_of result ≡ behind_byte in_string (class byte) }
{
    if byte == b'"' {
        Mode::Between
    } else if byte == b'\\' {
        Mode::InEscape
    } else {
        Mode::InString
    }
}

/// Where the scan stands after one more byte.
pub(crate) fn behind(mode: Mode, byte: u8) -> Mode
    ensures { mode_of result ≡ behind_byte (mode_of mode) (class byte) }
{
    match mode {
        Mode::InString => in_string(byte),
        Mode::InEscape => Mode::InString,
        Mode::Between | Mode::InWord => behind_byte(mode, class_of(byte)),
    }
}

/// Whether no string is open.
pub(crate) fn is_closed(mode: Mode) -> bool
    ensures { result ≡ is_closed (mode_of mode) }
{
    match mode {
        Mode::Between => true,
        Mode::InWord => true,
        Mode::InString => false,
        Mode::InEscape => false,
    }
}
