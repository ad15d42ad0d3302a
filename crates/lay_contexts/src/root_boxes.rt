//! The boxes of the formatting context of a root.

ghost use Rattle.std.specs.Prelude.{ℕ, ◌≡◌, ◌<◌, ◌≤◌, true, IfOk, length};
ghost use Rattle.lay_box_tree.specs.ContextBoxes.{AreContextBoxes};
ghost use Rattle.lay_contexts.specs.FormattingBoxes.{as_member, boxes_of_root, place_inside, placed_box};
ghost use Rattle.lay_box_tree.specs.BoxColumns.{box_at};
ghost use Rattle.lay_contexts.specs.Homes.{is_root};
ghost use Rattle.lay_contexts.specs.Partings.{IsParting};

use crate::parting::Parting;
use crate::roots::{box_parent, is_root};
use lay_box_tree::{BoxKind, BoxNode, BoxTree, ContextBoxes};
use lay_units::NoMemory;
use std::alloc::Global;

/// The boxes of the formatting context of the root r of a context, which has `first` as its number. Where it is the only
/// root they are those of the context, and shared.
pub(crate) fn boxes_of_root(
    alloc: Global,
    boxes: &ContextBoxes,
    parting: &Parting,
    first: usize,
    r: usize,
) -> Result<ContextBoxes, NoMemory>
    requires parting { IsParting boxes.now first parting.now }
    requires within { r < length boxes.now }
    requires root { is_root boxes.now r ≡ true }
    ensures { IfOk result (λ b. b ≡ boxes_of_root boxes.now parting.now.homes r) }
{
    let all = boxes.as_slice();
    if parting.number(all.len()) == first + 1 {
        let shared = boxes.share()?;
        return Ok(shared);
    }
    let items = listed(alloc, all, parting, r)?;
    ContextBoxes::new(alloc, BoxTree::new(items))
}

/// A copy of the boxes.
fn listed(
    alloc: Global,
    boxes: &[BoxNode],
    parting: &Parting,
    r: usize,
) -> Result<Vec<BoxNode>, NoMemory>
    requires are { AreContextBoxes boxes.now }
    requires parting { (first : ℕ) × IsParting boxes.now first parting.now }
    requires within { r < length boxes.now }
    ensures { IfOk result (λ v. v.items ≡ boxes_of_root boxes.now parting.now.homes r) }
{
    let count = parting.count_at_home(r);
    let mut items = Vec::new(alloc);
    items.push(placed(alloc, &boxes[r], 0, false)?)?;
    for a in 0..count {
        let member = member(alloc, boxes, parting, parting.at_home(r, a))?;
        items.push(member)?;
    }
    Ok(items)
}

/// The box at k in the list of its home.
fn member(
    alloc: Global,
    boxes: &[BoxNode],
    parting: &Parting,
    k: usize,
) -> Result<BoxNode, NoMemory>
    requires parting { (first : ℕ) × IsParting boxes.now first parting.now }
    requires within { k < length boxes.now }
    requires parent { (box_at boxes.now k).parent < length boxes.now }
    ensures { IfOk result (λ b. b ≡ as_member boxes.now parting.now.homes k) }
{
    let parent = place_inside(boxes, parting, box_parent(boxes, k));
    let inner = boxes[k].inner || is_root(boxes, k);
    placed(alloc, &boxes[k], parent as u32, inner)
}

/// The place of the box at p as a parent, in the list that its children stand in.
fn place_inside(boxes: &[BoxNode], parting: &Parting, p: usize) -> usize
    requires parting { (first : ℕ) × IsParting boxes.now first parting.now }
    requires within { p < length boxes.now }
    ensures place { result ≡ place_inside boxes.now parting.now.homes p }
    ensures low { result ≤ p }
{
    if is_root(boxes, p) {
        return 0;
    }
    parting.rank(p)
}

/// A box with another parent.
fn placed(alloc: Global, node: &BoxNode, parent: u32, inner: bool) -> Result<BoxNode, NoMemory>
    ensures { IfOk result (λ b. b ≡ placed_box node.now parent inner) }
{
    Ok(BoxNode {
        node: node.node,
        parent,
        kind: copied(alloc, &node.kind)?,
        flow: node.flow,
        anonymous: node.anonymous,
        inner,
        style: node.style,
    })
}

/// An equal kind.
fn copied(alloc: Global, kind: &BoxKind) -> Result<BoxKind, NoMemory>
    ensures { IfOk result (λ k. k ≡ kind.now) }
{
    let copy = match kind {
        BoxKind::Block => BoxKind::Block,
        BoxKind::InlineBlock => BoxKind::InlineBlock,
        BoxKind::Inline => BoxKind::Inline,
        BoxKind::Text(text) => BoxKind::Text(text.copy(alloc)?),
        BoxKind::Replaced { w, h, inline } => BoxKind::Replaced {
            w: *w,
            h: *h,
            inline: *inline,
        },
        BoxKind::Wrapper => BoxKind::Wrapper,
        BoxKind::InlineWrapper => BoxKind::InlineWrapper,
        BoxKind::Table => BoxKind::Table,
        BoxKind::Caption => BoxKind::Caption,
        BoxKind::RowGroup => BoxKind::RowGroup,
        BoxKind::HeaderGroup => BoxKind::HeaderGroup,
        BoxKind::FooterGroup => BoxKind::FooterGroup,
        BoxKind::Row => BoxKind::Row,
        BoxKind::ColumnGroup { span } => BoxKind::ColumnGroup { span: *span },
        BoxKind::Column { span } => BoxKind::Column { span: *span },
        BoxKind::Cell { colspan, rowspan } => BoxKind::Cell {
            colspan: *colspan,
            rowspan: *rowspan,
        },
        BoxKind::Anchor => BoxKind::Anchor,
    };
    Ok(copy)
}
