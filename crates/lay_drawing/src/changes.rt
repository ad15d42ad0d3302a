//! What two trees differ in.

ghost use Rattle.std.specs.Prelude.{◌≡◌, ◌++◌, IfOk, OnOk, map};
ghost use Rattle.std.specs.List.{flat_map, list_any};
ghost use Rattle.lay_drawing.specs.Marks.{marked};
ghost use Rattle.lay_drawing.specs.Changes.{is_box, is_line, is_text, is_same_kind, is_named, is_sized, is_placed_alike, is_moved};
ghost use Rattle.lay_drawing.specs.Changes.{is_same, mark_after, mark_before, left_of, differences, NothingDiffers};

use crate::mark::{Mark, Marked};
use lay_frag::{Frag, FragKind};
use lay_units::NoMemory;
use std::alloc::Global;

/// All pieces of the later tree, and those of the earlier one that it hasn't.
pub(crate) fn differences(
    alloc: Global,
    before: &[Frag],
    after: &[Frag],
) -> Result<Vec<Marked>, NoMemory>
    ensures { IfOk result (λ v. v.items ≡ differences before.now after.now) }
{
    let mut pieces = Vec::new(alloc);
    push_after(&mut pieces, before, after)?;
    push_left(&mut pieces, before, after)?;
    Ok(pieces)
}

fn push_after(pieces: &mut Vec<Marked>, before: &[Frag], after: &[Frag]) -> Result<(), NoMemory>
    ensures { OnOk result (pieces.new.items ≡ pieces.old.items ++ map (λ f. marked (mark_after before.now f) f) after.now) }
{
    for piece in after {
        let mark = mark_after(before, piece);
        pieces.push(Marked {
            piece: *piece,
            mark,
        })?;
    }
    Ok(())
}

fn push_left(pieces: &mut Vec<Marked>, before: &[Frag], after: &[Frag]) -> Result<(), NoMemory>
    ensures { OnOk result (pieces.new.items ≡ pieces.old.items ++ flat_map (left_of after.now) before.now) }
{
    for piece in before {
        push_if_left(pieces, after, piece)?;
    }
    Ok(())
}

fn push_if_left(pieces: &mut Vec<Marked>, after: &[Frag], piece: &Frag) -> Result<(), NoMemory>
    ensures { OnOk result (pieces.new.items ≡ pieces.old.items ++ left_of after.now piece.now) }
{
    if any_same(piece, after) {
        return Ok(());
    }
    let mark = mark_before(after, piece);
    pieces.push(Marked {
        piece: *piece,
        mark,
    })?;
    Ok(())
}

/// What is said of a piece of the later tree.
fn mark_after(before: &[Frag], piece: &Frag) -> Mark
    ensures { result ≡ mark_after before.now piece.now }
{
    if any_same(piece, before) {
        Mark::Same
    } else if any_moved(piece, before) {
        Mark::Moved
    } else if any_named(piece, before) {
        Mark::Resized
    } else {
        Mark::New
    }
}

/// What is said of a piece of the earlier tree that the later one hasn't.
fn mark_before(after: &[Frag], piece: &Frag) -> Mark
    ensures { result ≡ mark_before after.now piece.now }
{
    if any_named(piece, after) {
        Mark::Former
    } else {
        Mark::Gone
    }
}

fn any_same(piece: &Frag, others: &[Frag]) -> bool
    ensures { result ≡ list_any (is_same piece.now) others.now }
{
    for other in others {
        if is_same(piece, other) {
            return true;
        }
    }
    false
}

fn any_moved(piece: &Frag, others: &[Frag]) -> bool
    ensures { result ≡ list_any (is_moved piece.now) others.now }
{
    for other in others {
        if is_moved(piece, other) {
            return true;
        }
    }
    false
}

fn any_named(piece: &Frag, others: &[Frag]) -> bool
    ensures { result ≡ list_any (is_named piece.now) others.now }
{
    for other in others {
        if is_named(piece, other) {
            return true;
        }
    }
    false
}

/// Whether two pieces have one name, one size and one place.
fn is_same(a: &Frag, b: &Frag) -> bool
    ensures { result ≡ is_same a.now b.now }
{
    is_moved(a, b) && is_placed(a, b)
}

fn is_moved(a: &Frag, b: &Frag) -> bool
    ensures { result ≡ is_moved a.now b.now }
{
    is_named(a, b) && is_sized(a, b)
}

fn is_placed(a: &Frag, b: &Frag) -> bool
    ensures { result ≡ is_placed_alike a.now b.now }
{
    a.rect.x.0 == b.rect.x.0 && a.rect.y.0 == b.rect.y.0
}

fn is_sized(a: &Frag, b: &Frag) -> bool
    ensures { result ≡ is_sized a.now b.now }
{
    a.rect.w.0 == b.rect.w.0 && a.rect.h.0 == b.rect.h.0
}

fn is_named(a: &Frag, b: &Frag) -> bool
    ensures { result ≡ is_named a.now b.now }
{
    is_kind(a.kind, b.kind) && a.node.0 == b.node.0 && a.part == b.part
}

pub(crate) fn is_kind(a: FragKind, b: FragKind) -> bool
    ensures { result ≡ is_same_kind a b }
{
    match a {
        FragKind::Box => is_box(b),
        FragKind::Line => is_line(b),
        FragKind::Text => is_text(b),
    }
}

pub(crate) fn is_box(kind: FragKind) -> bool
    ensures { result ≡ is_box kind }
{
    matches!(kind, FragKind::Box)
}

fn is_line(kind: FragKind) -> bool
    ensures { result ≡ is_line kind }
{
    matches!(kind, FragKind::Line)
}

fn is_text(kind: FragKind) -> bool
    ensures { result ≡ is_text kind }
{
    matches!(kind, FragKind::Text)
}

/// Between a tree and itself nothing differs.
pub fn nothing_differs()
    ensures { NothingDiffers }
{}
