//! What box generation leaves of inline boxes: each box of the root's context in order, `[` behind the first
//! part of an inline box and `]` behind the last, and behind `<` the place of the box's former parent.

use crate::boxes::{push_box, root_boxes, trimmed};
use anyhow::Result;
use lay_abspos::relative::former_parents;
use lay_box_tree::inline_parts;
use lay_case_reading::ample;
use std::alloc::Global;

/// First and last parts.
pub(crate) fn of_inlines(alloc: Global, text: &str) -> Result<String> {
    let tree = root_boxes(alloc, text)?;
    let boxes = tree.as_slice();
    let parts = ample(inline_parts(alloc, boxes))?;
    let mut out = String::new(alloc);
    for (node, part) in boxes.iter().zip(parts.iter()) {
        push_box(&mut out, node)?;
        if part.first {
            out.push('[')?;
        }
        if part.last {
            out.push(']')?;
        }
        out.push(' ')?;
    }
    trimmed(alloc, &out)
}

/// Former parents.
pub(crate) fn former(alloc: Global, text: &str) -> Result<String> {
    let tree = root_boxes(alloc, text)?;
    let parents = ample(former_parents(alloc, &tree))?;
    let mut out = String::new(alloc);
    for (node, parent) in tree.as_slice().iter().zip(parents.iter()) {
        push_box(&mut out, node)?;
        if let Some(place) = parent {
            write!(out, "<{place}")?;
        }
        out.push(' ')?;
    }
    trimmed(alloc, &out)
}
