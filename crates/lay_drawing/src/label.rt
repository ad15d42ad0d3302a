//! The labels of boxes.

ghost use Rattle.std.specs.Prelude.{◌≡◌, ◌≤ℤ◌, ◌-ℤ◌, pos, IfOk, OnOk, length, int_le};
ghost use Rattle.std.specs.List.{All};
ghost use Rattle.std.specs.Fmt.{decimal};
ghost use Rattle.lay_drawing.specs.Marks.{IsMarked};
ghost use Rattle.lay_drawing.specs.Labels.{label_width, is_label_at, meets, is_in_way, behind, begin_at, is_told};
ghost use Rattle.lay_drawing.specs.Labels.{crosses, overlaps, is_free, span_up_to, place_in, label_at, label_in};
ghost use Rattle.lay_drawing.specs.Labels.{label_for, with_label, labels_of, LabelsAreApart, LabelsAreInBoxes};

use crate::changes::is_box;
use crate::frame::{Frame, Span, edges};
use crate::mark::{Mark, Marked};
use lay_units::NoMemory;
use std::alloc::Global;

/// The number of a node at the corner of a box.
#[derive(Clone, Copy)]
pub struct Label {
    pub node: u32,
    pub mark: Mark,
    /// The left edge of the box.
    pub corner: i64,
    /// The place of the label.
    pub frame: Frame,
}

/// The labels of these pieces.
pub(crate) fn labels_of(alloc: Global, pieces: &[Marked]) -> Result<Vec<Label>, NoMemory>
    requires { All IsMarked pieces.now }
    ensures { IfOk result (λ v. v.items ≡ labels_of pieces.now) }
{
    let mut labels = Vec::new(alloc);
    for piece in pieces {
        let label = label_for(&labels, piece);
        push_label(&mut labels, label)?;
    }
    Ok(labels)
}

fn push_label(labels: &mut Vec<Label>, label: Option<Label>) -> Result<(), NoMemory>
    ensures { OnOk result (labels.new.items ≡ with_label labels.old.items label) }
{
    if let Some(label) = label {
        labels.push(label)?;
    }
    Ok(())
}

/// The label of a box, after these.
fn label_for(labels: &[Label], piece: &Marked) -> Option<Label>
    requires { IsMarked piece.now }
    ensures { result ≡ label_for labels.now piece.now }
{
    if is_box(piece.piece.kind) {
        label_in(labels, piece, edges(&piece.piece))
    } else {
        None
    }
}

fn label_in(labels: &[Label], piece: &Marked, edges: Frame) -> Option<Label>
    ensures { result ≡ label_in labels.now piece.now edges }
{
    let frame = place_in(labels, piece.piece.node.0, edges)?;
    label_at(labels, piece, edges.across.low, frame)
}

/// The label in this place, if the number isn't told at the corner and no label is in the way.
fn label_at(labels: &[Label], piece: &Marked, corner: i64, frame: Frame) -> Option<Label>
    ensures { result ≡ label_at labels.now piece.now corner frame }
{
    let node = piece.piece.node.0;
    if is_told(labels, corner, frame.down.low, node) {
        return None;
    }
    if !is_free(labels, frame) {
        return None;
    }
    Some(Label {
        node,
        mark: piece.mark,
        corner,
        frame,
    })
}

/// The place of a number at the corner of a box, behind the labels in its way, if the box has room for it.
fn place_in(labels: &[Label], node: u32, edges: Frame) -> Option<Frame>
    ensures { result ≡ place_in labels.now node edges }
{
    let width = label_width(node);
    let left = begin_at(labels, edges.across.low, edges.down.low, width);
    let across = span_up_to(left, width, edges.across.high)?;
    let down = span_up_to(edges.down.low, 832, edges.down.high)?;
    Some(Frame { across, down })
}

/// The span of a size from an edge, if it ends at most at the other one.
fn span_up_to(from: i64, size: i64, most: i64) -> Option<Span>
    requires { pos 0 ≤ℤ size }
    ensures { result ≡ span_up_to from size most }
{
    if !fits(from, size, most) {
        return None;
    }
    Some(Span {
        low: from,
        high: from + size,
    })
}

fn fits(from: i64, size: i64, most: i64) -> bool
    ensures { result ≡ int_le size (most -ℤ from) }
{
    i128::from(size) <= i128::from(most) - i128::from(from)
}

/// How wide the label of a node is: 6 px a digit, and 3 px on each side.
fn label_width(node: u32) -> i64
    ensures value { result ≡ label_width node }
    ensures some { pos 0 ≤ℤ result }
{
    384 * i64::from(digits(node)) + 384
}

fn digits(node: u32) -> u32
    ensures { result ≡ length (decimal node) }
{
    let mut left = node;
    let mut count = 1;
    while 10 <= left {
        left /= 10;
        count += 1;
    }
    count
}

/// Where a label begins: at the corner, or behind those that are in its way from there on.
fn begin_at(labels: &[Label], left: i64, top: i64, width: i64) -> i64
    ensures { result ≡ begin_at left top width labels.now }
{
    let mut begin = left;
    for label in labels {
        begin = behind(label, begin, top, width);
    }
    begin
}

fn behind(label: &Label, left: i64, top: i64, width: i64) -> i64
    ensures { result ≡ behind top width left label.now }
{
    if is_in_way(label, left, top, width) {
        label.frame.across.high
    } else {
        left
    }
}

fn is_in_way(label: &Label, left: i64, top: i64, width: i64) -> bool
    ensures { result ≡ is_in_way left top width label.now }
{
    meets(left, width, label.frame.across) && meets(top, 832, label.frame.down)
}

/// Whether a size from an edge reaches into a span.
fn meets(from: i64, size: i64, span: Span) -> bool
    ensures { result ≡ meets from size span }
{
    from < span.high && !fits(from, size, span.low)
}

fn is_at(label: &Label, left: i64, top: i64) -> bool
    ensures { result ≡ is_label_at left top label.now }
{
    label.corner == left && label.frame.down.low == top
}

/// Whether the number of a node stands at a corner.
fn is_told(labels: &[Label], left: i64, top: i64, node: u32) -> bool
    ensures { result ≡ is_told left top node labels.now }
{
    for label in labels {
        if is_at(label, left, top) && label.node == node {
            return true;
        }
    }
    false
}

/// Whether no label stands in the way.
fn is_free(labels: &[Label], frame: Frame) -> bool
    ensures { result ≡ is_free labels.now frame }
{
    for label in labels {
        if overlaps(frame, label) {
            return false;
        }
    }
    true
}

fn overlaps(frame: Frame, label: &Label) -> bool
    ensures { result ≡ overlaps frame label.now }
{
    crosses(frame.across, label.frame.across) && crosses(frame.down, label.frame.down)
}

/// Whether two spans have a point in common.
fn crosses(a: Span, b: Span) -> bool
    ensures { result ≡ crosses a b }
{
    a.low < b.high && b.low < a.high
}

/// No point of the page is in two labels.
pub fn labels_are_apart()
    ensures { LabelsAreApart }
{}

/// Each label stands in a box with its number.
pub fn labels_are_in_boxes()
    ensures { LabelsAreInBoxes }
{}
