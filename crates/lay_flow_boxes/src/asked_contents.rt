//! The content of lines that is asked for more than once.

ghost use Rattle.std.specs.Prelude.{◌≡◌, ◌<◌, length, IfOk};
ghost use Rattle.lay_line_items.specs.InlineContents.{AreContents};
ghost use Rattle.lay_flow_boxes.specs.AskedContents.{AreAskedContents, AreHolders, is_any_asked, is_asked, is_asked_at};

use lay_box_tree::{BoxKind, BoxNode, ContextBoxes};
use lay_face::Face;
use lay_line_items::InlineContents;
use lay_units::NoMemory;
use std::alloc::Global;

/// For which boxes the content of the lines that have them is asked for more than once.
#[derive(Clone, Copy)]
pub enum Asked {
    /// For texts, and so for all lines that take long to make.
    Texts,
    /// For anchors alone.
    Anchors,
    /// For none.
    Nothing,
}

/// The content of the lines of those of these boxes that hold such a box.
pub fn contents_of(
    alloc: Global,
    boxes: &ContextBoxes,
    face: &Face,
    asked: Asked,
) -> Result<InlineContents, NoMemory>
    ensures contents { IfOk result (AreContents face.now boxes.now) }
    ensures kept { IfOk result (AreAskedContents asked face.now boxes.now) }
{
    if !is_any_asked(boxes.as_slice(), asked) {
        return Ok(InlineContents::none());
    }
    let holders = asked_holders(alloc, boxes, asked)?;
    let contents = InlineContents::new(alloc, boxes.as_slice(), face, &holders)?;
    Ok(contents)
}

/// Whether there is such a box among these.
pub fn is_any_asked(boxes: &[BoxNode], asked: Asked) -> bool
    ensures { result ≡ is_any_asked asked boxes.now }
{
    for k in 0..boxes.len() {
        if is_asked_at(boxes, k, asked) {
            return true;
        }
    }
    false
}

/// Whether each box holds such a box.
fn asked_holders(alloc: Global, boxes: &ContextBoxes, asked: Asked) -> Result<Vec<bool>, NoMemory>
    ensures count { IfOk result (λ v. length v.items ≡ length boxes.now) }
    ensures holders { IfOk result (λ v. AreHolders asked boxes.now v.items) }
{
    let nodes = boxes.as_slice();
    let mut holders = vec![in alloc; false; nodes.len()]?;
    for k in 0..nodes.len() {
        if is_asked_at(nodes, k, asked) {
            let container = boxes.container(k);
            holders[container] = true;
        }
    }
    Ok(holders)
}

fn is_asked_at(boxes: &[BoxNode], k: usize, asked: Asked) -> bool
    requires { k < length boxes.now }
    ensures { result ≡ is_asked_at asked boxes.now k }
{
    is_asked(&boxes[k], asked)
}

fn is_asked(node: &BoxNode, asked: Asked) -> bool
    ensures { result ≡ is_asked asked node.now }
{
    match asked {
        Asked::Texts => matches!(node.kind, BoxKind::Text(_)),
        Asked::Anchors => matches!(node.kind, BoxKind::Anchor),
        Asked::Nothing => false,
    }
}
