//! Inline content as flat tokens.

ghost use Rattle.std.specs.Prelude.{◌≡◌, ◌+◌, ◌≤◌, ◌==◌, ◌∷◌, ◌++◌, IfOk, slice_index, List, true, false};
ghost use Rattle.lay_space.specs.Tokens.{
  is_byte,
  space_kind,
  is_linefeed,
  is_zero_width_space,
  kind_of,
  next_place,
  cluster_tokens,
  tokens_of_item,
  tokens_of,
  is_collapsible,
  begins_line,
  without_leading_spaces,
};

use crate::item::{Item, Mode};
use lay_units::{ClusterWidth, NoMemory, Unit};
use std::alloc::Global;

/// What a grapheme cluster is to a line. A space with a combining mark is none of the spaces.
#[derive(Clone, Copy)]
pub enum ClusterKind {
    CollapsibleSpace,
    PreservedSpace,
    /// A preserved linefeed, or CR LF.
    Linefeed,
    /// A preserved tab.
    Tab,
    /// U+200B, behind which a line may break.
    ZeroWidthSpace,
    Other,
}

/// A grapheme cluster: its bytes in the text of the item at this place, its kind and its width.
#[derive(Clone, Copy)]
pub struct Cluster {
    pub item: usize,
    pub node: u32,
    pub mode: Mode,
    pub kind: ClusterKind,
    pub from: usize,
    pub to: usize,
    pub width: Unit,
}

/// A cluster of a text, the end of a text, or another item.
#[derive(Clone, Copy)]
pub enum Token {
    Cluster(Cluster),
    TextEnd,
    Atomic(u32, Mode),
    /// Whether it takes room.
    Start(u32, bool),
    End(u32),
    Float(u32),
    Anchor(u32),
}

/// The tokens of inline content, in order, without the collapsible spaces that surely begin a line.
pub fn tokens_of(alloc: Global, items: &[Item]) -> Result<Vec<Token>, NoMemory>
    ensures { IfOk result (λ v. v.items ≡ without_leading_spaces true (tokens_of 0 items.now)) }
{
    let mut out = Vec::with_capacity(alloc, room_of(items))?;
    let mut first = true;
    for k in 0..items.len() {
        first = put_item(&mut out, first, k, &items[k])?;
    }
    Ok(out)
}

/// How many tokens items have at most.
fn room_of(items: &[Item]) -> usize {
    let mut room = items.len();
    for item in items {
        if let Item::Text { widths, .. } = item {
            room = room.saturating_add(widths.as_slice().len());
        }
    }
    room
}

/// Puts the tokens of an item, of which `first` says whether it surely begins a line, and says so of what follows it.
fn put_item(out: &mut Vec<Token>, first: bool, place: usize, item: &Item) -> Result<bool, NoMemory>
    ensures { IfOk result (λ next. (rest : List Token)
        → out.old.items ++ without_leading_spaces first (tokens_of_item place item.now ++ rest)
        ≡ out.new.items ++ without_leading_spaces next rest) }
{
    let token = match item {
        Item::Text {
            node,
            text,
            mode,
            widths,
        } => {
            let of = TextOf {
                item: place,
                node: *node,
                mode: *mode,
            };
            let first = put_clusters(out, first, of, text.as_str().as_bytes(), widths.as_slice())?;
            return put_unless_leading(out, first, Token::TextEnd);
        }
        Item::Atomic(node, mode) => Token::Atomic(*node, *mode),
        Item::Start(node, takes_room) => Token::Start(*node, *takes_room),
        Item::End(node) => Token::End(*node),
        Item::Float(node) => Token::Float(*node),
        Item::Anchor(node) => Token::Anchor(*node),
    };
    put_unless_leading(out, first, token)
}

/// The place of a text's item, the number of its box and its `white-space`.
#[derive(Clone, Copy)]
struct TextOf {
    item: usize,
    node: u32,
    mode: Mode,
}

fn put_clusters(
    out: &mut Vec<Token>,
    first: bool,
    of: TextOf,
    text: &[u8],
    widths: &[ClusterWidth],
) -> Result<bool, NoMemory>
    ensures { IfOk result (λ next. (rest : List Token)
        → out.old.items ++ without_leading_spaces first (cluster_tokens of.item of.node of.mode text.now widths.now ++ rest)
        ≡ out.new.items ++ without_leading_spaces next rest) }
{
    let mut first = first;
    for k in 0..widths.len() {
        let token = cluster_token(of, text, widths[k], &widths[k + 1..]);
        first = put_unless_leading(out, first, token)?;
    }
    Ok(first)
}

fn cluster_token(of: TextOf, text: &[u8], width: ClusterWidth, rest: &[ClusterWidth]) -> Token
    ensures { result ∷ cluster_tokens of.item of.node of.mode text.now rest.now
        ≡ cluster_tokens of.item of.node of.mode text.now (width ∷ rest.now) }
{
    let from = width.place;
    let to = next_place(text, rest);
    let kind = cluster_kind(of.mode, text, from, to);
    Token::Cluster(Cluster {
        item: of.item,
        node: of.node,
        mode: of.mode,
        kind,
        from,
        to,
        width: width.width,
    })
}

/// Puts a token that doesn't collapse at the start of a line.
fn put_unless_leading(out: &mut Vec<Token>, first: bool, token: Token) -> Result<bool, NoMemory>
    ensures { IfOk result (λ next. (rest : List Token)
        → out.old.items ++ without_leading_spaces first (token ∷ rest)
        ≡ out.new.items ++ without_leading_spaces next rest) }
{
    if first && is_collapsible(token) {
        return Ok(first);
    }
    out.push(token)?;
    Ok(begins_line(first, token))
}

/// Where the next cluster of a text begins, of which these are the clusters from there on, or where the text ends. In bytes.
pub fn next_place(text: &[u8], rest: &[ClusterWidth]) -> usize
    ensures { result ≡ next_place text.now rest.now }
{
    match rest.first() {
        Some(width) => width.place,
        None => text.len(),
    }
}

/// What the cluster between two places of a text is to a line under this mode.
pub fn cluster_kind(mode: Mode, text: &[u8], from: usize, to: usize) -> ClusterKind
    ensures { result ≡ kind_of mode text.now from to }
{
    if is_byte(text, from, to, b' ') {
        return space_kind(mode);
    }
    if is_linefeed(text, from, to) {
        return if mode.joins_lines() {
            ClusterKind::Other
        } else {
            ClusterKind::Linefeed
        };
    }
    if is_byte(text, from, to, b'\t') {
        return if mode.collapses() {
            ClusterKind::Other
        } else {
            ClusterKind::Tab
        };
    }
    if is_zero_width_space(text, from, to) {
        ClusterKind::ZeroWidthSpace
    } else {
        ClusterKind::Other
    }
}

fn space_kind(mode: Mode) -> ClusterKind
    ensures { result ≡ space_kind mode }
{
    if mode.collapses() {
        ClusterKind::CollapsibleSpace
    } else {
        ClusterKind::PreservedSpace
    }
}

fn is_byte(text: &[u8], from: usize, to: usize, byte: u8) -> bool
    ensures { result ≡ is_byte text.now from to byte }
{
    spans(from, to, 1) && byte_at(text, from) == byte
}

fn is_linefeed(text: &[u8], from: usize, to: usize) -> bool
    ensures { result ≡ is_linefeed text.now from to }
{
    if is_byte(text, from, to, b'\n') {
        return true;
    }
    spans(from, to, 2) && byte_at(text, from) == b'\r' && byte_at(text, from + 1) == b'\n'
}

fn is_zero_width_space(text: &[u8], from: usize, to: usize) -> bool
    ensures { result ≡ is_zero_width_space text.now from to }
{
    spans(from, to, 3)
        && byte_at(text, from) == 226
        && byte_at(text, from + 1) == 128
        && byte_at(text, from + 2) == 139
}

fn spans(from: usize, to: usize, bytes: usize) -> bool
    requires { bytes ≤ 3 }
    ensures { result ≡ (to == from + bytes) }
{
    to >= from && to - from == bytes
}

fn byte_at(text: &[u8], at: usize) -> u8
    ensures { result ≡ slice_index text.now at }
{
    match text.get(at) {
        Some(byte) => *byte,
        None => 0,
    }
}

fn is_collapsible(token: Token) -> bool
    ensures { result ≡ is_collapsible token }
{
    match token {
        Token::Cluster(cluster) => match cluster.kind {
            ClusterKind::CollapsibleSpace => true,
            _ => false,
        },
        _ => false,
    }
}

fn begins_line(first: bool, token: Token) -> bool
    ensures { result ≡ begins_line first token }
{
    match token {
        Token::Cluster(cluster) => match cluster.kind {
            ClusterKind::CollapsibleSpace => first,
            ClusterKind::Linefeed => true,
            _ => false,
        },
        Token::Atomic(_, _) => false,
        _ => first,
    }
}
