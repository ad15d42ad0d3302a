//! Edits of a document that begins as one element, 1. The calls:
//!
//!     insert PARENT INDEX ID            an element, before the child with the index
//!     append PARENT ID                  an element, as the last child
//!     append-text PARENT ID TEXT        a text, as the last child
//!     set-style NODE PROPERTY: VALUE
//!     clear-style NODE PROPERTY
//!     set-text NODE TEXT
//!     remove NODE
//!     list                              the ids in document order, each with its parent's
//!     find NODE                         the node's place, from 0
//!     declared NODE                     the declarations
//!
//! An edit is answered by its first fault, if it has one; it changes nothing then.

use crate::case::Subject;
use crate::notation::{declaration, done, shown, two_numbers};
use anyhow::{Result, bail};
use lay_doc::{Doc, Edit, NewNode, NodeId, NodeRef};
use lay_style::Decls;
use lay_units::{NoMemory, Text};
use lay_values::property_of;
use std::alloc::Global;

/// A document with the edits of a case.
#[derive(Drop)]
pub(crate) struct EditedDocument {
    doc: Doc,
}

impl EditedDocument {
    /// The document of the element 1.
    pub(crate) fn new(alloc: Global) -> Result<EditedDocument> {
        match Doc::new(alloc, 800, 600, element(alloc, 1)) {
            Ok(doc) => Ok(EditedDocument { doc }),
            Err(_) => bail!("no document"),
        }
    }

    /// Applies an edit, or answers its fault.
    fn apply(&mut self, alloc: Global, edit: &Edit) -> Result<Option<String>, NoMemory> {
        if let Err(fault) = self.doc.check(edit) {
            return Ok(Some(shown(alloc, fault)?));
        }
        self.doc.apply(alloc, edit)?;
        done(alloc)
    }

    /// Puts a node as a last child, or answers its fault.
    fn append(
        &mut self,
        alloc: Global,
        parent: u32,
        new: NewNode,
    ) -> Result<Option<String>, NoMemory> {
        if let Some(fault) = self.doc.check_last(NodeId(parent), &new) {
            return Ok(Some(shown(alloc, fault)?));
        }
        self.doc.push_last(NodeId(parent), new)?;
        done(alloc)
    }

    fn read(&self, alloc: Global, call: &str, rest: &str) -> Result<Option<String>, NoMemory> {
        match call {
            "list" => Ok(Some(self.list(alloc)?)),
            "find" => self.find(alloc, rest),
            "declared" => self.declared(alloc, rest),
            _ => Ok(None),
        }
    }

    /// The ids of an equal document.
    fn list(&self, alloc: Global) -> Result<String, NoMemory> {
        let doc = self.doc.copy(alloc)?;
        let mut text = String::new(alloc);
        for place in 0..doc.len() {
            if let Some(node) = doc.node(place) {
                let blank = if place == 0 { "" } else { " " };
                write!(text, "{blank}{}<{}", node.id().0, node.parent().0)?;
            }
        }
        Ok(text)
    }

    fn find(&self, alloc: Global, id: &str) -> Result<Option<String>, NoMemory> {
        match id.parse::<u32>() {
            Ok(id) => Ok(Some(shown(alloc, self.doc.find(NodeId(id)))?)),
            Err(_) => Ok(None),
        }
    }

    fn node(&self, id: &str) -> Option<NodeRef<'_>> {
        self.doc
            .node(self.doc.find(NodeId(id.parse::<u32>().ok()?))?)
    }

    fn declared(&self, alloc: Global, id: &str) -> Result<Option<String>, NoMemory> {
        let Some(node) = self.node(id) else {
            return Ok(None);
        };
        let mut text = String::new(alloc);
        for decl in node.decls().as_slice() {
            let comma = if text.is_empty() { "" } else { ", " };
            write!(text, "{comma}{:?} {:?}", decl.property(), decl.value())?;
        }
        Ok(Some(text))
    }
}

impl Subject for EditedDocument {
    fn answer(&mut self, alloc: Global, line: &str) -> Result<Option<String>, NoMemory> {
        let (call, rest) = line.split_once(' ').unwrap_or((line, ""));
        if let Some((parent, new)) = appended(alloc, call, rest)? {
            return self.append(alloc, parent, new);
        }
        match edit(alloc, call, rest)? {
            Some(edit) => self.apply(alloc, &edit),
            None => self.read(alloc, call, rest),
        }
    }
}

fn element(alloc: Global, id: u32) -> NewNode {
    NewNode::element(alloc, NodeId(id), 1, 1, Decls::new(alloc))
}

/// A parent and its new last child; None where the call is another.
fn appended(alloc: Global, call: &str, rest: &str) -> Result<Option<(u32, NewNode)>, NoMemory> {
    match call {
        "append" => Ok(appended_element(alloc, rest)),
        "append-text" => appended_text(alloc, rest),
        _ => Ok(None),
    }
}

fn appended_element(alloc: Global, rest: &str) -> Option<(u32, NewNode)> {
    let (parent, id) = two_numbers(rest)?;
    Some((parent, element(alloc, id)))
}

fn appended_text(alloc: Global, rest: &str) -> Result<Option<(u32, NewNode)>, NoMemory> {
    let Some((ids, words)) = rest.rsplit_once(' ') else {
        return Ok(None);
    };
    let Some((parent, id)) = two_numbers(ids) else {
        return Ok(None);
    };
    let text = Text::new(String::from_str(alloc, words)?);
    Ok(Some((parent, NewNode::text(alloc, NodeId(id), text))))
}

/// The edit of a call; None where it is another call.
fn edit(alloc: Global, call: &str, rest: &str) -> Result<Option<Edit>, NoMemory> {
    match call {
        "insert" => Ok(insertion(alloc, rest)),
        "set-style" => Ok(style_setting(alloc, rest)),
        "clear-style" => Ok(style_clearing(rest)),
        "set-text" => text_setting(alloc, rest),
        "remove" => Ok(removal(rest)),
        _ => Ok(None),
    }
}

fn insertion(alloc: Global, rest: &str) -> Option<Edit> {
    let (parent, rest) = rest.split_once(' ')?;
    let (index, id) = two_numbers(rest)?;
    let parent = NodeId(parent.parse::<u32>().ok()?);
    let new = element(alloc, id);
    Some(Edit::Insert { parent, index, new })
}

/// A node, and what stands behind its id.
fn node_and_rest(rest: &str) -> Option<(NodeId, &str)> {
    let (id, rest) = rest.split_once(' ')?;
    Some((NodeId(id.parse::<u32>().ok()?), rest))
}

fn style_setting(alloc: Global, rest: &str) -> Option<Edit> {
    let (node, text) = node_and_rest(rest)?;
    let decl = declaration(alloc, text)?;
    Some(Edit::SetStyle { node, decl })
}

fn style_clearing(rest: &str) -> Option<Edit> {
    let (node, name) = node_and_rest(rest)?;
    let property = property_of(name)?;
    Some(Edit::ClearStyle { node, property })
}

fn text_setting(alloc: Global, rest: &str) -> Result<Option<Edit>, NoMemory> {
    let Some((node, words)) = node_and_rest(rest) else {
        return Ok(None);
    };
    let text = Text::new(String::from_str(alloc, words)?);
    Ok(Some(Edit::SetText { node, text }))
}

fn removal(rest: &str) -> Option<Edit> {
    let node = NodeId(rest.parse::<u32>().ok()?);
    Some(Edit::Remove { node })
}
