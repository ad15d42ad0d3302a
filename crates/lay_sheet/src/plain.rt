//! What is seen of a sheet's text.

ghost use Rattle.std.specs.Prelude.{◌≡◌, ◌≤◌, ◌<◌, ℕ, false, [], ◌++◌, IfOk, OnOk, length, slice_index};
ghost use Rattle.lay_sheet.specs.Lists.{with_found};
ghost use Rattle.lay_sheet.specs.PlainText.{is_mark, may_open, begins_with, opens_comment, ends_comment};
ghost use Rattle.lay_sheet.specs.PlainText.{place_behind, seen_of, plain_from, plain_text};

use lay_units::NoMemory;
use memchr::{memchr, memchr3};
use std::alloc::Global;

/// How much of a text is looked at together.
const WINDOW: usize = 128;

/// Where a byte stands in a sheet's text.
#[derive(Clone, Copy)]
pub enum Place {
    Outside,
    /// Behind a backslash.
    Escape,
    /// In a string with this mark.
    InString(u8),
    /// Behind a backslash in a string with this mark.
    StringEscape(u8),
    /// The second byte of a comment.
    CommentOpen,
    InComment,
    /// The last byte of a comment.
    CommentEnd,
}

fn is_mark(byte: u8) -> bool
    ensures { result ≡ is_mark byte }
{
    byte == b'"' || byte == b'\''
}

fn begins_with(byte: u8, text: &[u8]) -> bool
    ensures { result ≡ begins_with byte text.now }
{
    match text {
        [] => false,
        [first, ..] => *first == byte,
    }
}

fn opens_comment(byte: u8, rest: &[u8]) -> bool
    ensures { result ≡ opens_comment byte rest.now }
{
    byte == b'/' && begins_with(b'*', rest)
}

fn ends_comment(byte: u8, rest: &[u8]) -> bool
    ensures { result ≡ ends_comment byte rest.now }
{
    byte == b'*' && begins_with(b'/', rest)
}

/// Where the byte behind this one stands.
fn place_behind(place: Place, byte: u8, rest: &[u8]) -> Place
    ensures { result ≡ place_behind place byte rest.now }
{
    match place {
        Place::Outside if is_mark(byte) => Place::InString(byte),
        Place::Outside if byte == b'\\' => Place::Escape,
        Place::Outside if opens_comment(byte, rest) => Place::CommentOpen,
        Place::Outside | Place::Escape | Place::CommentEnd => Place::Outside,
        Place::InString(mark) if byte == mark || byte == b'\n' => Place::Outside,
        Place::InString(mark) if byte == b'\\' => Place::StringEscape(mark),
        Place::InString(mark) | Place::StringEscape(mark) => Place::InString(mark),
        Place::InComment if ends_comment(byte, rest) => Place::CommentEnd,
        Place::InComment | Place::CommentOpen => Place::InComment,
    }
}

/// What is seen of a byte.
fn seen_of(place: Place, byte: u8, rest: &[u8]) -> Option<u8>
    ensures { result ≡ seen_of place byte rest.now }
{
    match place {
        Place::Outside if opens_comment(byte, rest) => Some(b' '),
        Place::Outside => Some(byte),
        _ => None,
    }
}

/// How many bytes of a text begin nothing else; all of them are seen.
fn run_length(text: &[u8]) -> usize
    ensures bound { result ≤ length text.now }
    ensures seen { (k : ℕ) → k < result → may_open (slice_index text.now k) ≡ false }
{
    let end = memchr3(b'"', b'\'', b'\\', text).unwrap_or(text.len());
    memchr(b'/', &text[..end]).unwrap_or(end)
}

/// What a text begins with, of which all is seen, and what stands behind it.
fn split_run(text: &[u8]) -> (&[u8], &[u8])
    ensures seen { plain_text text.now ≡ result.0.now ++ plain_text result.1.now }
    ensures shorter { length result.1.now ≤ length text.now }
{
    // No further than that, so that a byte is looked at a few times at most where there are many marks of one kind alone.
    let window = &text[..text.len().min(WINDOW)];
    text.split_at(run_length(window))
}

/// Adds what is seen of a text as it stands, in one copy, and answers what is behind it.
fn push_run<'a>(seen: &mut Vec<u8>, place: Place, text: &'a [u8]) -> Result<&'a [u8], NoMemory>
    ensures seen { IfOk result (λ rest. seen.new.items ++ plain_from place rest.now ≡ seen.old.items ++ plain_from place text.now) }
    ensures shorter { IfOk result (λ rest. length rest.now ≤ length text.now) }
{
    if !matches!(place, Place::Outside) {
        return Ok(text);
    }
    let (run, rest) = split_run(text);
    seen.extend_from_slice(run)?;
    Ok(rest)
}

fn push_seen(seen: &mut Vec<u8>, byte: Option<u8>) -> Result<(), NoMemory>
    ensures { OnOk result (seen.new.items ≡ seen.old.items ++ with_found byte []) }
{
    if let Some(byte) = byte {
        seen.push(byte)?;
    }
    Ok(())
}

/// What is seen of a text.
pub(crate) fn plain_text(alloc: Global, text: &[u8]) -> Result<Vec<u8>, NoMemory>
    ensures { IfOk result (λ v. v.items ≡ plain_text text.now) }
{
    let mut seen = Vec::with_capacity(alloc, text.len())?;
    let mut place = Place::Outside;
    let mut rest = text;
    while !rest.is_empty() {
        rest = push_run(&mut seen, place, rest)?;
        if let [byte, behind @ ..] = rest {
            push_seen(&mut seen, seen_of(place, *byte, behind))?;
            place = place_behind(place, *byte, behind);
            rest = behind;
        }
    }
    Ok(seen)
}
