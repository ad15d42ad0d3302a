//! The edits of an editor.

use crate::words::{first, node, small_number};
use lay_doc::{Edit, NewNode, NodeId};
use lay_history::edits::Edits;
use lay_style::{Decl, Decls, Property};
use lay_units::{NoMemory, Text};
use lay_values::{ValueFault, property_of, read};
use std::alloc::Global;

/// The list of the one edit of a call; None where it is another call.
pub(crate) fn one_edit(alloc: Global, call: &str, rest: &str) -> Result<Option<Edits>, NoMemory> {
    match edit(alloc, call, rest)? {
        Some(edit) => Ok(Some(Edits::one(alloc, edit)?)),
        None => Ok(None),
    }
}

fn edit(alloc: Global, call: &str, rest: &str) -> Result<Option<Edit>, NoMemory> {
    match call {
        "set" => Ok(style_setting(alloc, rest)),
        "clear" => Ok(style_clearing(rest)),
        "text" => text_setting(alloc, rest),
        "insert" => Ok(insertion(alloc, rest)),
        "insert-text" => text_insertion(alloc, rest),
        "remove" => Ok(removal(rest)),
        _ => Ok(None),
    }
}

/// A number, and what stands after it.
fn number_and_rest(text: &str) -> Option<(u32, &str)> {
    let (number, rest) = first(text);
    Some((small_number(number)?, rest))
}

/// What `read` answers, without what is promised of it.
fn declaration(alloc: Global, name: &str, value: &str) -> Result<Decl, ValueFault> {
    read(alloc, name, value)
}

/// What `property_of` answers, without what is promised of it.
fn property(name: &str) -> Option<Property> {
    property_of(name)
}

fn style_setting(alloc: Global, rest: &str) -> Option<Edit> {
    let (node, text) = number_and_rest(rest)?;
    let (name, value) = text.split_once(": ")?;
    let decl = declaration(alloc, name, value).ok()?;
    Some(Edit::SetStyle {
        node: NodeId(node),
        decl,
    })
}

fn style_clearing(rest: &str) -> Option<Edit> {
    let (node, name) = number_and_rest(rest)?;
    let property = property(name)?;
    Some(Edit::ClearStyle {
        node: NodeId(node),
        property,
    })
}

fn text_setting(alloc: Global, rest: &str) -> Result<Option<Edit>, NoMemory> {
    let Some((node, words)) = number_and_rest(rest) else {
        return Ok(None);
    };
    let text = Text::new(String::from_str(alloc, words)?);
    let node = NodeId(node);
    Ok(Some(Edit::SetText { node, text }))
}

/// A parent, an index among its children and the id of a new node, and what stands after them.
fn slot(rest: &str) -> Option<(NodeId, u32, NodeId, &str)> {
    let (parent, rest) = number_and_rest(rest)?;
    let (index, rest) = number_and_rest(rest)?;
    let (id, rest) = number_and_rest(rest)?;
    Some((NodeId(parent), index, NodeId(id), rest))
}

fn insertion(alloc: Global, rest: &str) -> Option<Edit> {
    let (parent, index, id, _) = slot(rest)?;
    let new = NewNode::element(alloc, id, 1, 1, Decls::new(alloc));
    Some(Edit::Insert { parent, index, new })
}

fn text_insertion(alloc: Global, rest: &str) -> Result<Option<Edit>, NoMemory> {
    let Some((parent, index, id, words)) = slot(rest) else {
        return Ok(None);
    };
    let text = Text::new(String::from_str(alloc, words)?);
    let new = NewNode::text(alloc, id, text);
    Ok(Some(Edit::Insert { parent, index, new }))
}

fn removal(rest: &str) -> Option<Edit> {
    Some(Edit::Remove { node: node(rest)? })
}
