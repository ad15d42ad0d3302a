//! The lines of a report.

ghost use Rattle.std.specs.Prelude.{◌≡◌, map};
ghost use Rattle.lay_drawing.specs.Reading.{line_of, edit_line, reply_of, refused_of, place_field, fault_of};
ghost use Rattle.lay_drawing.specs.Reading.{read_of, version_shown, counted_of, piece_of, rect_of, kind_of, is_word};

use crate::numbers::{number, position, small};
use lay_doc::NodeId;
use lay_frag::{Frag, FragKind};
use lay_units::Rect;

/// What an edit was answered.
#[derive(Clone, Copy)]
pub enum EditReply {
    /// It made this version.
    Accepted(u64),
    /// It has the fault of this number, from 1 to 11; where it is one of several, its place among them follows, from 0.
    Refused(u64, Option<u64>),
    /// Memory ran out.
    NoMemory,
}

/// A line of a report. Editors are counted from 1, their commands from 0.
#[derive(Clone, Copy)]
pub enum Line {
    /// An edit, by its editor and the index of the command, and the reply to it.
    Edit(u32, u32, EditReply),
    /// The tree of this version was published.
    Publish(u64),
    /// The last published version was shown, or memory ran out.
    Latest(u32, u32, Option<u64>),
    /// The version with all edits so far was shown, or memory ran out.
    Sync(u32, u32, Option<u64>),
    /// The last version.
    Final(u64),
    /// How many contexts were laid out.
    Laid(u64),
    /// A piece of the tree that is shown.
    Piece(Frag),
}

/// The line with these fields.
pub(crate) fn line_from(fields: &[&[u8]]) -> Option<Line>
    ensures { result ≡ line_of (map (λ f. f.now) fields.now) }
{
    let (word, rest) = fields.split_first()?;
    if is_word(word, "edit") {
        return edit(rest);
    }
    if is_word(word, "latest") {
        let (editor, index, shown) = read(rest)?;
        return Some(Line::Latest(editor, index, shown));
    }
    if is_word(word, "sync") {
        let (editor, index, shown) = read(rest)?;
        return Some(Line::Sync(editor, index, shown));
    }
    if is_word(word, "publish") {
        return Some(Line::Publish(counted(rest)?));
    }
    if is_word(word, "final") {
        return Some(Line::Final(counted(rest)?));
    }
    if is_word(word, "laid") {
        return Some(Line::Laid(counted(rest)?));
    }
    Some(Line::Piece(piece(kind(word)?, rest)?))
}

fn is_word(field: &[u8], word: &str) -> bool
    ensures { result ≡ is_word word.now field.now }
{
    field == word.as_bytes()
}

fn edit(fields: &[&[u8]]) -> Option<Line>
    ensures { result ≡ edit_line (map (λ f. f.now) fields.now) }
{
    let (editor, rest) = fields.split_first()?;
    let (index, reply_fields) = rest.split_first()?;
    Some(Line::Edit(small(editor)?, small(index)?, reply(reply_fields)?))
}

fn reply(fields: &[&[u8]]) -> Option<EditReply>
    ensures { result ≡ reply_of (map (λ f. f.now) fields.now) }
{
    let (word, rest) = fields.split_first()?;
    if is_word(word, "accepted") {
        return Some(EditReply::Accepted(counted(rest)?));
    }
    if is_word(word, "refused") {
        return refused(rest);
    }
    if is_word(word, "nomemory") && rest.is_empty() {
        return Some(EditReply::NoMemory);
    }
    None
}

/// A fault, and behind it the place of the edit that has it, where it is one of several.
fn refused(fields: &[&[u8]]) -> Option<EditReply>
    ensures { result ≡ refused_of (map (λ f. f.now) fields.now) }
{
    let (field, rest) = fields.split_first()?;
    Some(EditReply::Refused(fault(field)?, place(rest)?))
}

/// The place of an edit among several, where one is named.
fn place(fields: &[&[u8]]) -> Option<Option<u64>>
    ensures { result ≡ place_field (map (λ f. f.now) fields.now) }
{
    if fields.is_empty() {
        return Some(None);
    }
    let (word, rest) = fields.split_first()?;
    if !is_word(word, "at") {
        return None;
    }
    Some(Some(counted(rest)?))
}

/// The number of a fault, which is written behind an `E`.
fn fault(field: &[u8]) -> Option<u64>
    ensures { result ≡ fault_of field.now }
{
    let (letter, digits) = field.split_first()?;
    let number = number(digits)?;
    if *letter == b'E' && 1 <= number && number <= 11 {
        Some(number)
    } else {
        None
    }
}

/// An editor, the index of a command that reads, and the version that it was shown.
fn read(fields: &[&[u8]]) -> Option<(u32, u32, Option<u64>)>
    ensures { result ≡ read_of (map (λ f. f.now) fields.now) }
{
    let (editor, rest) = fields.split_first()?;
    let (index, reply_fields) = rest.split_first()?;
    Some((small(editor)?, small(index)?, shown(reply_fields)?))
}

fn shown(fields: &[&[u8]]) -> Option<Option<u64>>
    ensures { result ≡ version_shown (map (λ f. f.now) fields.now) }
{
    let (field, rest) = fields.split_first()?;
    if is_word(field, "nomemory") && rest.is_empty() {
        return Some(None);
    }
    Some(Some(counted(fields)?))
}

/// The number that is the one field.
fn counted(fields: &[&[u8]]) -> Option<u64>
    ensures { result ≡ counted_of (map (λ f. f.now) fields.now) }
{
    let (field, rest) = fields.split_first()?;
    if !rest.is_empty() {
        return None;
    }
    number(field)
}

pub(crate) fn kind(word: &[u8]) -> Option<FragKind>
    ensures { result ≡ kind_of word.now }
{
    if is_word(word, "box") {
        return Some(FragKind::Box);
    }
    if is_word(word, "line") {
        return Some(FragKind::Line);
    }
    if is_word(word, "text") {
        return Some(FragKind::Text);
    }
    None
}

fn piece(kind: FragKind, fields: &[&[u8]]) -> Option<Frag>
    ensures { result ≡ piece_of kind (map (λ f. f.now) fields.now) }
{
    let (node, rest) = fields.split_first()?;
    let (part, lengths) = rest.split_first()?;
    Some(Frag {
        kind,
        node: NodeId(small(node)?),
        part: small(part)?,
        rect: rect(lengths)?,
    })
}

fn rect(fields: &[&[u8]]) -> Option<Rect>
    ensures { result ≡ rect_of (map (λ f. f.now) fields.now) }
{
    let (x, below_x) = fields.split_first()?;
    let (y, below_y) = below_x.split_first()?;
    let (w, below_w) = below_y.split_first()?;
    let (h, rest) = below_w.split_first()?;
    if !rest.is_empty() {
        return None;
    }
    Some(Rect {
        x: position(x)?,
        y: position(y)?,
        w: position(w)?,
        h: position(h)?,
    })
}
