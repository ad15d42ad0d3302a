//! The pieces of a formatting context as they come, each with its part.

ghost use Rattle.std.specs.Prelude.{◌≡◌, ◌<◌, ◌≤◌, ◌∷◌, ◌++◌, [], length, IfOk, OnErr, OnOk};
ghost use Rattle.lay_placements.specs.NearPieces.{AreNearPieces, IsRectNear};
ghost use Rattle.lay_placements.specs.PieceParts.{count_of, is_kind, numbered};
ghost use Rattle.lay_placements.specs.PieceCounts.{AreCounted, behind_first, count_in, first_of, with_one};

use crate::corner::near_position;
use crate::node_counts::{Counts, NodeCounts};
use lay_frag::{Frag, FragKind};
use lay_units::{NoMemory, Rect};
use std::alloc::Global;
use std::marker::Model;

/// The most pieces of a context.
const MOST_PIECES: usize = 2147483648;

/// How many pieces are looked at one by one. Most contexts have no more.
const FIRST_PIECES: usize = 8;

/// Pieces of one formatting context, each with its part. They are at most 2^31, and their edges and sizes are at most 2^60
/// units from 0.
#[derive(Drop)]
pub struct PieceList {
    items: Vec<Frag>,
    /// How many each node has behind the first.
    counts: NodeCounts,
}

impl Model for PieceList {
    ghost use Rattle.std.specs.Prelude.{List};
    ghost use Rattle.lay_frag.specs.declared.frag.Frag.{Frag};
    ghost use Rattle.lay_placements.specs.NearPieces.{AreNearPieces};
    ghost use Rattle.lay_placements.specs.PieceCounts.{AreCounted};

    ghost Value = { List Frag };

    ghost view = { λ p. p.items.items };

    ghost invariant = { λ p. AreCounted p.items.items p.counts × AreNearPieces p.items.items };
}

impl PieceList {
    /// No piece.
    pub fn new(alloc: Global) -> PieceList
        ensures { result ≡ [] }
    {
        PieceList::of_ids(alloc, 0, 0)
    }

    /// No piece, where most will be of nodes with ids from the first on, of which there are so many. These are counted without a
    /// search.
    pub fn of_ids(alloc: Global, first: u32, span: usize) -> PieceList
        ensures { result ≡ [] }
    {
        PieceList {
            items: Vec::new(alloc),
            counts: NodeCounts::new(alloc, first, span),
        }
    }

    /// Puts a piece behind these, which counts those of its kind and node before it. NoMemory is also the answer where it
    /// stands more than 2^60 units away, which it does in no document within the limits, and for more than 2^31 pieces; then
    /// these stay as they are.
    pub fn push(&mut self, piece: Frag) -> Result<(), NoMemory>
        ensures ok { OnOk result (self.new ≡ self.old ++ numbered self.old piece ∷ []) }
        ensures err { OnErr result (self.new ≡ self.old) }
    {
        let rect = near_rect(piece.rect)?;
        add(&mut self.items, &mut self.counts, Frag { rect, ..piece })
    }

    /// The pieces, in order.
    pub fn into_vec(self) -> Vec<Frag>
        ensures pieces { result.items ≡ self }
        ensures few { length result.items ≤ 2147483648 }
        ensures near { AreNearPieces result.items }
    {
        self.items
    }
}

/// Puts one more piece behind these, of which the counts are these. On an error all stays as it is.
fn add(items: &mut Vec<Frag>, counts: &mut NodeCounts, piece: Frag) -> Result<(), NoMemory>
    requires counted { AreCounted items.old.items counts.old }
    requires all_near { AreNearPieces items.old.items }
    requires near { IsRectNear piece.rect }
    ensures ok { OnOk result (items.new.items ≡ items.old.items ++ numbered items.old.items piece ∷ []) }
    ensures err { OnErr result (items.new.items ≡ items.old.items) }
    ensures counted { AreCounted items.new.items counts.new }
    ensures all_near { AreNearPieces items.new.items }
{
    let first = count_of(first_of(items), piece.kind, piece.node.0);
    if items.len() >= FIRST_PIECES {
        return add_behind(items, counts, piece, first);
    }
    items.push(Frag {
        part: first,
        ..piece
    })?;
    Ok(())
}

/// The same behind the first pieces, of which so many are of its kind and node.
fn add_behind(
    items: &mut Vec<Frag>,
    counts: &mut NodeCounts,
    piece: Frag,
    first: u32,
) -> Result<(), NoMemory>
    requires counted { AreCounted items.old.items counts.old }
    requires all_near { AreNearPieces items.old.items }
    requires near { IsRectNear piece.rect }
    requires many { FIRST_PIECES ≤ length items.old.items }
    requires first { first ≡ count_of piece.kind piece.node.0 (first_of items.old.items) }
    ensures ok { OnOk result (items.new.items ≡ items.old.items ++ numbered items.old.items piece ∷ []) }
    ensures err { OnErr result (items.new.items ≡ items.old.items) }
    ensures counted { AreCounted items.new.items counts.new }
    ensures all_near { AreNearPieces items.new.items }
{
    if items.len() >= MOST_PIECES {
        return Err(NoMemory);
    }
    // Room first, so that what is counted can be put there.
    items.reserve(1)?;
    let behind = take_note(counts, items, piece)?;
    items.push(Frag {
        part: first + behind,
        ..piece
    })?;
    Ok(())
}

/// Counts a piece that comes behind these. How many of its kind and node were counted before.
fn take_note(counts: &mut NodeCounts, items: &[Frag], piece: Frag) -> Result<u32, NoMemory>
    requires counted { AreCounted items.now counts.old }
    requires many { FIRST_PIECES ≤ length items.now }
    requires room { length items.now < 2147483648 }
    ensures before { IfOk result (λ n. n ≡ count_of piece.kind piece.node.0 (behind_first items.now)) }
    ensures after { OnOk result (AreCounted (items.now ++ numbered items.now piece ∷ []) counts.new) }
    ensures err { OnErr result (AreCounted items.now counts.new) }
{
    let _ = items;
    let node = counts.at(piece.node.0);
    counts.put(piece.node.0, with_one(node, piece.kind))?;
    Ok(count_in(node, piece.kind))
}

/// The first of these, or all.
fn first_of(items: &[Frag]) -> &[Frag]
    ensures { result.now ≡ first_of items.now }
{
    &items[..FIRST_PIECES.min(items.len())]
}

/// How many of these few pieces are of this kind and of the node with this id.
fn count_of(pieces: &[Frag], kind: FragKind, id: u32) -> u32
    requires { length pieces.now ≤ FIRST_PIECES }
    ensures { result ≡ count_of kind id pieces.now }
{
    let mut count = 0;
    for k in 0..pieces.len() {
        if is_kind(pieces[k].kind, kind) && pieces[k].node.0 == id {
            count += 1;
        }
    }
    count
}

fn is_kind(a: FragKind, b: FragKind) -> bool
    ensures { result ≡ is_kind a b }
{
    match a {
        FragKind::Box => matches!(b, FragKind::Box),
        FragKind::Line => matches!(b, FragKind::Line),
        FragKind::Text => matches!(b, FragKind::Text),
    }
}

/// A rectangle. NoMemory is the answer where one of its numbers is more than 2^60 units from 0.
fn near_rect(rect: Rect) -> Result<Rect, NoMemory>
    ensures value { IfOk result (λ r. r ≡ rect) }
    ensures near { IfOk result IsRectNear }
{
    let x = near_position(rect.x)?;
    let y = near_position(rect.y)?;
    let w = near_position(rect.w)?;
    let h = near_position(rect.h)?;
    Ok(Rect { x, y, w, h })
}

fn count_in(counts: Counts, kind: FragKind) -> u32
    ensures { result ≡ count_in counts kind }
{
    match kind {
        FragKind::Box => counts.boxes,
        FragKind::Line => counts.lines,
        FragKind::Text => counts.texts,
    }
}

fn with_one(counts: Counts, kind: FragKind) -> Counts
    requires { count_in counts kind ≤ 2147483648 }
    ensures { result ≡ with_one counts kind }
{
    match kind {
        FragKind::Box => Counts {
            boxes: counts.boxes + 1,
            ..counts
        },
        FragKind::Line => Counts {
            lines: counts.lines + 1,
            ..counts
        },
        FragKind::Text => Counts {
            texts: counts.texts + 1,
            ..counts
        },
    }
}
