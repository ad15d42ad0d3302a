//! Boxes of documents, written as the documents are. `w` is the wrapper of a table and `v` that of
//! an inline-table, `m` a replaced element, `@` an anchor; `*` stands before an anonymous box and
//! `'` behind that of an inner context.

ghost use Rattle.std.specs.Prelude.{◌≡◌, length};

use anyhow::{Result, bail};
use lay_box_tree::{BoxKind, BoxNode, BoxTree};
use lay_boxgen::{boxes, is_context};
use lay_case_reading::{ample, document};
use lay_doc::{Doc, NodeId};
use lay_inherit::computed;
use lay_style::{Computed, Display, LengthPercentageOrAuto, Style};
use lay_units::Unit;
use std::alloc::Global;

/// A document and the computed styles of its nodes.
#[derive(Drop)]
pub(crate) struct Page {
    pub doc: Doc,
    pub style: Computed,
    ghost each: { length style ≡ length doc.nodes },
}

/// The document that a text is.
pub(crate) fn styled(alloc: Global, text: &str) -> Result<Page> {
    let doc = document(alloc, text)?;
    let style = ample(computed(alloc, &doc))?;
    if style.as_slice().len() != doc.len() {
        bail!("not a style for each node");
    }
    Ok(Page { doc, style })
}

/// The boxes of the contexts of a document, context after context in document order.
pub(crate) fn of_all_contexts(alloc: Global, text: &str) -> Result<String> {
    let page = styled(alloc, text)?;
    let mut out = String::new(alloc);
    for node in page.doc.nodes() {
        if is_context(&page.doc, &page.style, node.id) {
            if !out.is_empty() {
                out.push(' ')?;
            }
            let tree = ample(boxes(alloc, &page.doc, &page.style, node.id))?;
            draw(alloc, &mut out, tree.as_slice())?;
        }
    }
    Ok(out)
}

/// The boxes of the root's context, each with its node's id and behind `<` the place of its parent.
pub(crate) fn with_nodes(alloc: Global, text: &str) -> Result<String> {
    let page = styled(alloc, text)?;
    let tree = ample(boxes(alloc, &page.doc, &page.style, NodeId(1)))?;
    let mut out = String::new(alloc);
    for node in tree.as_slice() {
        push_box(&mut out, node)?;
        let id = node.node.0;
        let parent = node.parent;
        write!(out, "{id}<{parent} ")?;
    }
    trimmed(alloc, &out)
}

/// The boxes of the root's context, each with what its style has: `b` for `display: block` and `i`
/// for inline, and the signs of documents for a font size and a margin that aren't the initial
/// ones.
pub(crate) fn with_styles(alloc: Global, text: &str) -> Result<String> {
    let page = styled(alloc, text)?;
    let tree = ample(boxes(alloc, &page.doc, &page.style, NodeId(1)))?;
    let mut out = String::new(alloc);
    for node in tree.as_slice() {
        push_box(&mut out, node)?;
        push_style(&mut out, &node.style)?;
        out.push(' ')?;
    }
    trimmed(alloc, &out)
}

/// The boxes of the root's context.
pub(crate) fn root_boxes(alloc: Global, text: &str) -> Result<BoxTree> {
    let page = styled(alloc, text)?;
    ample(boxes(alloc, &page.doc, &page.style, NodeId(1)))
}

/// How many boxes the root's context has.
pub(crate) fn count(alloc: Global, text: &str) -> Result<String> {
    let page = styled(alloc, text)?;
    let tree = ample(boxes(alloc, &page.doc, &page.style, NodeId(1)))?;
    let count = tree.as_slice().len();
    Ok(format!(in alloc; "{count}")?)
}

/// The text without the space at its end.
pub(crate) fn trimmed(alloc: Global, text: &String) -> Result<String> {
    Ok(String::from_str(alloc, text.as_str().trim())?)
}

fn push_style(out: &mut String, style: &Style) -> Result<()> {
    out.push(match style.display {
        Display::Block => 'b',
        Display::Inline => 'i',
        _ => '?',
    })?;
    if style.text.font_size != Unit(1024) {
        out.push('+')?;
    }
    if style.margin.left != LengthPercentageOrAuto::Length(Unit(0)) {
        out.push('~')?;
    }
    Ok(())
}

/// Writes boxes as a tree.
pub(crate) fn draw(alloc: Global, out: &mut String, boxes: &[BoxNode]) -> Result<()> {
    let mut depths = Vec::new(alloc);
    let mut before = 0;
    for node in boxes {
        let depth = depth_of(&depths, node.parent);
        push_brackets(out, before, depth)?;
        push_box(out, node)?;
        depths.push(depth)?;
        before = depth;
    }
    push_brackets(out, before, 0)
}

/// How deep a box is, where the boxes before it are so deep.
fn depth_of(depths: &[u32], parent: u32) -> u32 {
    match depths.get(parent as usize) {
        None => 0,
        Some(depth) => depth.saturating_add(1),
    }
}

/// Writes brackets from a box at one depth to the next at another.
fn push_brackets(out: &mut String, from: u32, to: u32) -> Result<()> {
    if from < to {
        out.push('(')?;
    }
    for _ in to..from {
        out.push(')')?;
    }
    Ok(())
}

/// Writes a box.
pub(crate) fn push_box(out: &mut String, node: &BoxNode) -> Result<()> {
    if node.anonymous {
        out.push('*')?;
    }
    out.push(letter_of(&node.kind))?;
    if node.inner {
        out.push('\'')?;
    }
    Ok(())
}

fn letter_of(kind: &BoxKind) -> char {
    match kind {
        BoxKind::Block => 'b',
        BoxKind::InlineBlock => 'k',
        BoxKind::Inline => 'i',
        BoxKind::Text(text) => match text.as_str() {
            " " => '_',
            "\n" => '^',
            "\r" => '|',
            _ => '.',
        },
        BoxKind::Replaced { .. } => 'm',
        BoxKind::Wrapper => 'w',
        BoxKind::InlineWrapper => 'v',
        BoxKind::Table => 't',
        BoxKind::Caption => 'p',
        BoxKind::RowGroup => 'g',
        BoxKind::HeaderGroup => 'h',
        BoxKind::FooterGroup => 'f',
        BoxKind::Row => 'r',
        BoxKind::ColumnGroup { .. } => 'G',
        BoxKind::Column { .. } => 'C',
        BoxKind::Cell { .. } => 'c',
        BoxKind::Anchor => '@',
    }
}
