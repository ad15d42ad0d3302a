//! Computed styles (CSS 2.2, 6.1 and 6.2). A call is `{DECLARATIONS}`, those of a root, or two such
//! groups, those of a root and of its only child. The answer has each computed value of the last element
//! that isn't the initial one, behind its property's name; it is `initial` where all are.
//! `initial PROPERTY` is answered with the computed value of a root that declares nothing. Lengths are in
//! 1/64 px.

use crate::case::Subject;
use crate::notation::declarations;
use crate::properties::{PROPERTIES, computed_value};
use lay_doc::{Doc, NewNode, NodeId};
use lay_inherit::computed;
use lay_style::{Decls, Style};
use lay_units::NoMemory;
use lay_values::property_of;
use std::alloc::Global;

/// The styles of a root and its child.
#[derive(Drop)]
pub(crate) struct ComputedStyles;

impl Subject for ComputedStyles {
    fn answer(&mut self, alloc: Global, line: &str) -> Result<Option<String>, NoMemory> {
        match line.strip_prefix("initial ") {
            Some(name) => initial_value(alloc, name),
            None => changes(alloc, line),
        }
    }
}

/// The initial computed value of the property with this name.
fn initial_value(alloc: Global, name: &str) -> Result<Option<String>, NoMemory> {
    match (property_of(name), initial_style(alloc)?) {
        (Some(property), Some(style)) => Ok(Some(computed_value(alloc, &style, property)?)),
        _ => Ok(None),
    }
}

/// What the last element of a call has that isn't initial.
fn changes(alloc: Global, line: &str) -> Result<Option<String>, NoMemory> {
    match (last_style(alloc, line)?, initial_style(alloc)?) {
        (Some(style), Some(initial)) => Ok(Some(differences(alloc, &style, &initial)?)),
        _ => Ok(None),
    }
}

fn differences(alloc: Global, style: &Style, initial: &Style) -> Result<String, NoMemory> {
    let mut text = String::new(alloc);
    for (name, property) in PROPERTIES {
        let value = computed_value(alloc, style, property)?;
        if value != computed_value(alloc, initial, property)? {
            let comma = if text.is_empty() { "" } else { ", " };
            write!(text, "{comma}{name} {value}")?;
        }
    }
    if text.is_empty() {
        text.push_str("initial")?;
    }
    Ok(text)
}

fn initial_style(alloc: Global) -> Result<Option<Style>, NoMemory> {
    last_style(alloc, "{}")
}

/// The style of the last element of a call.
fn last_style(alloc: Global, line: &str) -> Result<Option<Style>, NoMemory> {
    let Some(groups) = groups_of(line) else {
        return Ok(None);
    };
    let (root, child) = match groups.split_once("} {") {
        Some((root, child)) => (root, Some(child)),
        None => (groups, None),
    };
    let Some(mut doc) = root_document(alloc, root)? else {
        return Ok(None);
    };
    if let Some(child) = child
        && !has_put_child(alloc, &mut doc, child)?
    {
        return Ok(None);
    }
    Ok(computed(alloc, &doc)?.as_slice().last().copied())
}

/// What stands between the first and the last brace of a call.
fn groups_of(line: &str) -> Option<&str> {
    line.strip_prefix('{')?.strip_suffix('}')
}

/// The document of one root with these declarations.
fn root_document(alloc: Global, text: &str) -> Result<Option<Doc>, NoMemory> {
    match declarations(alloc, text)? {
        Some(decls) => Ok(Doc::new(alloc, 800, 600, element(alloc, 1, decls)).ok()),
        None => Ok(None),
    }
}

/// Puts a child with these declarations below the root. False where that can't be.
fn has_put_child(alloc: Global, doc: &mut Doc, text: &str) -> Result<bool, NoMemory> {
    let Some(decls) = declarations(alloc, text)? else {
        return Ok(false);
    };
    let child = element(alloc, 2, decls);
    if doc.check_last(NodeId(1), &child).is_some() {
        return Ok(false);
    }
    doc.push_last(NodeId(1), child)?;
    Ok(true)
}

fn element(alloc: Global, id: u32, decls: Decls) -> NewNode {
    NewNode::element(alloc, NodeId(id), 1, 1, decls)
}
