//! A document.

ghost use Rattle.std.specs.Prelude.{◌≡◌, ◌↔◌, ◌+◌, ◌<◌, ◌≤◌, ◌==◌, length, slice_index, true};
ghost use Rattle.std.specs.Prelude.{false, Some, None, Err, IfOk, IfErr, IfSome, OnOk, OnErr};
ghost use Rattle.lay_units.specs.Limits.{longest_text, most_depth, most_nodes, most_text};
ghost use Rattle.lay_style.specs.Places.{place_of};
ghost use Rattle.lay_doc.specs.Document.{IsDocument, ids_of, parents_of, depths_of, text_size};
ghost use Rattle.lay_doc.specs.Document.{is_element_at, is_text_at, inserted, becomes, root_document};
ghost use Rattle.lay_doc.specs.NodeRefs.{node_ref_at, parent_id};
ghost use Rattle.lay_doc.specs.Tree.{IsSlot, children_before, child_count, end_of};
ghost use Rattle.lay_doc.specs.Changes.{style_fault, text_fault, text_fault_at, with_style};
ghost use Rattle.lay_doc.specs.Changes.{without_style, with_text, changed_at, after_change};
ghost use Rattle.lay_doc.specs.Removal.{remove_fault, removed, after_remove};
ghost use Rattle.lay_doc.specs.Edits.{root_fault, fault, after, insert_fault, fault_below, last_index, after_insert, inserted_below};

use crate::changing::{clear_style, set_style, set_text};
use crate::columns::{depth_at, id_at, is_element_at, is_text_at, parent_at, text_bytes_at};
use crate::edit::{Edit, EditFault};
use crate::faults::{limit_fault, parent_or_id_fault, text_fault_at};
use crate::index::IdIndex;
use crate::insertion::put_node;
use crate::node::{NewNode, Node, NodeId, copy_nodes};
use crate::node_ref::NodeRef;
use crate::placing::{child_count, last_slot, slot};
use crate::removal::{remove_between, text_bytes_between};
use lay_style::{Decl, Property};
use lay_units::{NoMemory, Text};
use std::alloc::Global;
use std::marker::Model;

/// A document: a viewport in px, and a tree of nodes in document order.
#[derive(Drop)]
pub struct Doc {
    width: u32,
    height: u32,
    nodes: Vec<Node>,
    index: IdIndex,
    /// The bytes of all texts together.
    text_bytes: usize,
}

impl Model for Doc {
    ghost use Rattle.lay_doc.specs.Document.{Document};
    ghost use Rattle.lay_doc.specs.Index.{IsKept};

    ghost Value = { Document };

    ghost view = { λ d. record { width = d.width; height = d.height; nodes = d.nodes.items } };

    ghost invariant = { λ d. IsKept (record { width = d.width; height = d.height; nodes = d.nodes.items }) d.index d.text_bytes };
}

/// Why there is no document.
#[derive(Clone, Copy)]
pub enum NewFault {
    /// The root has this fault.
    Bad(EditFault),
    /// Memory ran out.
    NoMemory,
}

impl Doc {
    /// The document of one root, below a viewport of 1 to 1,000,000 px each way. The root's faults are
    /// that it is no element (E2) and that its id is 0 (E4), in this order.
    pub fn new(alloc: Global, width: u32, height: u32, root: NewNode) -> Result<Doc, NewFault>
        requires wide { 1 ≤ width }
        requires narrow { width ≤ 1000000 }
        requires high { 1 ≤ height }
        requires low { height ≤ 1000000 }
        ensures ok { IfOk result (λ d. d ≡ root_document width height root) }
        ensures bad { (f : EditFault) → (result ≡ Err (NewFault.Bad f)) ↔ (root_fault root ≡ Some f) }
    {
        if let Some(fault) = root_fault(&root) {
            return Err(NewFault::Bad(fault));
        }
        let id = root.id();
        let mut index = IdIndex::new(alloc);
        let mut nodes = Vec::new(alloc);
        if nodes.push(root.into_node(0, 1)).is_err() || index.add(id.0, 0).is_err() {
            return Err(NewFault::NoMemory);
        }
        Ok(Doc {
            width,
            height,
            nodes,
            index,
            text_bytes: 0,
        })
    }

    /// An equal document.
    pub fn copy(&self, alloc: Global) -> Result<Doc, NoMemory>
        ensures { IfOk result (λ d. d ≡ self.now) }
    {
        let nodes = copy_nodes(alloc, &self.nodes)?;
        let index = IdIndex::without(alloc, &self.nodes, 0, 0)?;
        Ok(Doc {
            width: self.width,
            height: self.height,
            nodes,
            index,
            text_bytes: self.text_bytes,
        })
    }

    /// The viewport's width, in px.
    pub fn width(&self) -> u32
        ensures { result ≡ self.now.width }
    {
        self.width
    }

    /// The viewport's height, in px.
    pub fn height(&self) -> u32
        ensures { result ≡ self.now.height }
    {
        self.height
    }

    /// The number of nodes, from 1 to 65,536.
    pub fn len(&self) -> usize
        ensures { result ≡ length self.now.nodes }
    {
        self.nodes.len()
    }

    /// The place of the node with this id.
    pub fn find(&self, id: NodeId) -> Option<usize>
        ensures value { result ≡ place_of id.0 (ids_of self.now.nodes) }
        ensures within { IfSome result (λ p. p < length self.now.nodes) }
    {
        self.index.find(id.0)
    }

    /// The node at a place; None where the place isn't below the number of nodes.
    pub fn node(&self, place: usize) -> Option<NodeRef<'_>>
        ensures { result ≡ node_ref_at self.now.nodes place }
    {
        let node = self.nodes.get(place)?;
        let parent = parent_id(&self.nodes, place);
        Some(NodeRef::new(node, parent))
    }

    /// The nodes in document order, each with the place of its parent.
    pub fn nodes(&self) -> &[Node]
        ensures nodes { result.now ≡ self.now.nodes }
        ensures valid { IsDocument self.now }
    {
        &self.nodes
    }

    /// The place of the parent of the node at a place; 0 for the root.
    pub fn parent_place(&self, place: usize) -> usize
        requires { place < length self.now.nodes }
        ensures { result ≡ slice_index (parents_of self.now.nodes) place }
    {
        parent_at(&self.nodes, place)
    }

    /// Whether the node at a place is an element.
    pub fn is_element(&self, place: usize) -> bool
        requires { place < length self.now.nodes }
        ensures { result ≡ is_element_at self.now.nodes place }
    {
        is_element_at(&self.nodes, place)
    }

    /// The place behind the node at a place and its descendants.
    pub fn end_of(&self, place: usize) -> usize
        requires { place < length self.now.nodes }
        ensures { result ≡ end_of (parents_of self.now.nodes) place }
    {
        last_slot(&self.nodes, place)
    }

    /// Err with the first fault of an edit (E1 to E11, in their order). It takes no memory.
    pub fn check(&self, edit: &Edit) -> Result<(), EditFault>
        ensures ok { OnOk result (fault self.now edit.now ≡ None) }
        ensures bad { IfErr result (λ f. fault self.now edit.now ≡ Some f) }
    {
        match self.first_fault(edit) {
            None => Ok(()),
            Some(fault) => Err(fault),
        }
    }

    /// Applies an edit in which `check` finds no fault. On an error all is as before.
    pub fn apply(&mut self, alloc: Global, edit: &Edit) -> Result<(), NoMemory>
        requires { fault self.old edit.now ≡ None }
        ensures ok { OnOk result (self.new ≡ after self.old edit.now) }
        ensures err { OnErr result (self.new ≡ self.old) }
    {
        match edit {
            Edit::SetStyle { node, decl } => self.set_style(*node, *decl),
            Edit::ClearStyle { node, property } => {
                self.clear_style(*node, *property);
                Ok(())
            }
            Edit::SetText { node, text } => {
                let text = text.copy(alloc)?;
                self.set_text(*node, text);
                Ok(())
            }
            Edit::Insert { parent, index, new } => {
                let new = new.copy(alloc)?;
                self.insert(*parent, *index, new)
            }
            Edit::Remove { node } => self.remove(alloc, *node),
            Edit::Bad { .. } => unreachable!(),
        }
    }

    /// The first fault of putting a node below its parent, as its last child. No child is counted, since
    /// the index can't be a fault.
    pub fn check_last(&self, parent: NodeId, new: &NewNode) -> Option<EditFault>
        ensures { result ≡ insert_fault self.now parent.0 (last_index self.now parent.0) new.now }
    {
        match self.find(parent) {
            None => Some(EditFault::NoNode),
            Some(place) => self.last_fault(place, new),
        }
    }

    /// Puts a node below its parent, as its last child, where `check_last` finds no fault. On an error all
    /// is as before.
    pub fn push_last(&mut self, parent: NodeId, new: NewNode) -> Result<(), NoMemory>
        requires { insert_fault self.old parent.0 (last_index self.old parent.0) new ≡ None }
        ensures ok { OnOk result (self.new ≡ after_insert self.old parent.0 (last_index self.old parent.0) new) }
        ensures err { OnErr result (self.new ≡ self.old) }
    {
        match self.find(parent) {
            None => unreachable!(),
            Some(place) => self.push_below(place, new),
        }
    }

    /// The first fault of an edit.
    fn first_fault(&self, edit: &Edit) -> Option<EditFault>
        ensures { result ≡ fault self.now edit.now }
    {
        match edit {
            Edit::SetStyle { node, .. } => self.style_fault(*node),
            Edit::ClearStyle { node, .. } => self.style_fault(*node),
            Edit::SetText { node, text } => self.text_fault(*node, text.len()),
            Edit::Insert { parent, index, new } => self.insert_fault(*parent, *index, new),
            Edit::Remove { node } => self.remove_fault(*node),
            Edit::Bad { fault } => Some(fault.edit_fault()),
        }
    }

    /// The first fault of changing the declarations of a node.
    fn style_fault(&self, node: NodeId) -> Option<EditFault>
        ensures { result ≡ style_fault self.now node.0 }
    {
        match self.find(node) {
            None => Some(EditFault::NoNode),
            Some(place) if is_text_at(&self.nodes, place) => Some(EditFault::NotElement),
            Some(_) => None,
        }
    }

    /// The first fault of giving a node a text of so many bytes.
    fn text_fault(&self, node: NodeId, bytes: usize) -> Option<EditFault>
        ensures { result ≡ text_fault self.now node.0 bytes }
    {
        match self.find(node) {
            None => Some(EditFault::NoNode),
            Some(place) => text_fault_at(&self.nodes, self.text_bytes, place, bytes),
        }
    }

    /// The first fault of removing a node with its descendants.
    fn remove_fault(&self, node: NodeId) -> Option<EditFault>
        ensures { result ≡ remove_fault self.now node.0 }
    {
        match self.find(node) {
            None => Some(EditFault::NoNode),
            Some(0) => Some(EditFault::RootFixed),
            Some(_) => None,
        }
    }

    /// Sets a declaration of a node.
    fn set_style(&mut self, node: NodeId, decl: Decl) -> Result<(), NoMemory>
        requires { style_fault self.old node.0 ≡ None }
        ensures ok { OnOk result (self.new ≡ after_change self.old node.0 (with_style decl)) }
        ensures err { OnErr result (self.new ≡ self.old) }
    {
        match self.find(node) {
            None => unreachable!(),
            Some(place) => self.set_style_at(place, decl),
        }
    }

    /// Takes away what a node declares for a property.
    fn clear_style(&mut self, node: NodeId, property: Property)
        requires { style_fault self.old node.0 ≡ None }
        ensures { self.new ≡ after_change self.old node.0 (without_style property) }
    {
        match self.find(node) {
            None => unreachable!(),
            Some(place) => self.clear_style_at(place, property),
        }
    }

    /// Gives a node another text.
    fn set_text(&mut self, node: NodeId, text: Text)
        requires { text_fault self.old node.0 (length text) ≡ None }
        ensures { self.new ≡ after_change self.old node.0 (with_text text) }
    {
        match self.find(node) {
            None => unreachable!(),
            Some(place) => self.set_text_at(place, text),
        }
    }

    /// Removes a node with its descendants.
    fn remove(&mut self, alloc: Global, node: NodeId) -> Result<(), NoMemory>
        requires { remove_fault self.old node.0 ≡ None }
        ensures ok { OnOk result (self.new ≡ after_remove self.old node.0) }
        ensures err { OnErr result (self.new ≡ self.old) }
    {
        match self.find(node) {
            None => unreachable!(),
            Some(place) => self.remove_at(alloc, place),
        }
    }

    /// Removes the node at a place, which isn't the root, with its descendants.
    fn remove_at(&mut self, alloc: Global, place: usize) -> Result<(), NoMemory>
        requires place { place < length self.old.nodes }
        requires not_root { 0 < place }
        ensures ok { OnOk result (self.new ≡ record self.old { nodes = removed self.old.nodes place }) }
        ensures err { OnErr result (self.new ≡ self.old) }
    {
        let end = last_slot(&self.nodes, place);
        let index = IdIndex::without(alloc, &self.nodes, place, end)?;
        self.text_bytes -= text_bytes_between(&self.nodes, place, end);
        remove_between(&mut self.nodes, place, end);
        self.index = index;
        Ok(())
    }

    /// Sets a declaration of the node at a place.
    fn set_style_at(&mut self, place: usize, decl: Decl) -> Result<(), NoMemory>
        requires place { place < length self.old.nodes }
        requires no_text { is_text_at self.old.nodes place ≡ false }
        ensures ok { OnOk result (self.new ≡ record self.old { nodes = changed_at place (with_style decl) self.old.nodes }) }
        ensures err { OnErr result (self.new ≡ self.old) }
    {
        set_style(&mut self.nodes, place, decl)?;
        Ok(())
    }

    /// Takes away what the node at a place declares for a property.
    fn clear_style_at(&mut self, place: usize, property: Property)
        requires place { place < length self.old.nodes }
        requires no_text { is_text_at self.old.nodes place ≡ false }
        ensures { self.new ≡ record self.old { nodes = changed_at place (without_style property) self.old.nodes } }
    {
        clear_style(&mut self.nodes, place, property);
    }

    /// Gives the node at a place another text.
    fn set_text_at(&mut self, place: usize, text: Text)
        requires place { place < length self.old.nodes }
        requires fault { text_fault_at self.old.nodes place (length text) ≡ None }
        ensures { self.new ≡ record self.old { nodes = changed_at place (with_text text) self.old.nodes } }
    {
        self.text_bytes = self.text_bytes - text_bytes_at(&self.nodes, place) + text.len();
        set_text(&mut self.nodes, place, text);
    }

    /// The first fault of putting a node below its parent, before the child that has the index.
    fn insert_fault(&self, parent: NodeId, index: u32, new: &NewNode) -> Option<EditFault>
        ensures { result ≡ insert_fault self.now parent.0 index new.now }
    {
        match self.find(parent) {
            None => Some(EditFault::NoNode),
            Some(place) => self.fault_below(place, index, new),
        }
    }

    /// The first fault of putting a node below the node at a place.
    fn fault_below(&self, place: usize, index: u32, new: &NewNode) -> Option<EditFault>
        requires { place < length self.now.nodes }
        ensures { result ≡ fault_below self.now.nodes place index new.now }
    {
        if let Some(fault) = parent_or_id_fault(&self.nodes, &self.index, place, new.id().0) {
            return Some(fault);
        }
        if child_count(&self.nodes, place) < index {
            return Some(EditFault::BadIndex);
        }
        limit_fault(&self.nodes, self.text_bytes, place, new.content().len())
    }

    /// Puts a node below its parent, before the child that has the index, or last.
    fn insert(&mut self, parent: NodeId, index: u32, new: NewNode) -> Result<(), NoMemory>
        requires { insert_fault self.old parent.0 index new ≡ None }
        ensures ok { OnOk result (self.new ≡ after_insert self.old parent.0 index new) }
        ensures err { OnErr result (self.new ≡ self.old) }
    {
        match self.find(parent) {
            None => unreachable!(),
            Some(place) => self.insert_below(place, index, new),
        }
    }

    /// Puts a node below the node at a place, before the child that has the index, or last.
    fn insert_below(&mut self, place: usize, index: u32, new: NewNode) -> Result<(), NoMemory>
        requires place { place < length self.old.nodes }
        requires fault { fault_below self.old.nodes place index new ≡ None }
        ensures ok { OnOk result (self.new ≡ inserted_below self.old place index new) }
        ensures err { OnErr result (self.new ≡ self.old) }
    {
        let at = slot(&self.nodes, place, index);
        self.put(place, at, new)?;
        Ok(())
    }

    /// The first fault of putting a node below the node at a place, as its last child.
    fn last_fault(&self, place: usize, new: &NewNode) -> Option<EditFault>
        requires { place < length self.now.nodes }
        ensures { result ≡ fault_below self.now.nodes place (child_count (parents_of self.now.nodes) place) new.now }
    {
        if let Some(fault) = parent_or_id_fault(&self.nodes, &self.index, place, new.id().0) {
            return Some(fault);
        }
        limit_fault(&self.nodes, self.text_bytes, place, new.content().len())
    }

    /// Puts a node below the node at a place, as its last child.
    fn push_below(&mut self, place: usize, new: NewNode) -> Result<(), NoMemory>
        requires place { place < length self.old.nodes }
        requires fault { fault_below self.old.nodes place (child_count (parents_of self.old.nodes) place) new ≡ None }
        ensures ok { OnOk result (self.new ≡ inserted_below self.old place (child_count (parents_of self.old.nodes) place) new) }
        ensures err { OnErr result (self.new ≡ self.old) }
    {
        let at = last_slot(&self.nodes, place);
        self.put(place, at, new)?;
        Ok(())
    }

    /// Puts a node below the node at a place, before the place `at`.
    fn put(&mut self, place: usize, at: usize, new: NewNode) -> Result<(), NoMemory>
        requires place { place < length self.old.nodes }
        requires slot { IsSlot (parents_of self.old.nodes) place (children_before (parents_of self.old.nodes) place at) at }
        requires element { is_element_at self.old.nodes place ≡ true }
        requires fresh { place_of new.id.0 (ids_of self.old.nodes) ≡ None }
        requires named { 0 < new.id.0 }
        requires few { length self.old.nodes < most_nodes }
        requires shallow { slice_index (depths_of self.old.nodes) place < most_depth }
        requires short { length new.text ≤ longest_text }
        requires small { text_size self.old.nodes + length new.text ≤ most_text }
        ensures ok { OnOk result
            (self.new
            ≡ record self.old {
              nodes =
                  inserted self.old.nodes at (becomes new place (slice_index (depths_of self.old.nodes) place + 1));
            }) }
        ensures err { OnErr result (self.new ≡ self.old) }
    {
        let bytes = new.content().len();
        let node = new.into_node(place, depth_at(&self.nodes, place) + 1);
        put_node(&mut self.nodes, &mut self.index, at, node)?;
        self.text_bytes += bytes;
        Ok(())
    }
}

/// The first fault of a document's root.
pub fn root_fault(root: &NewNode) -> Option<EditFault>
    ensures { result ≡ root_fault root.now }
{
    if !root.kind().is_element() {
        return Some(EditFault::NotElement);
    }
    if root.id().0 == 0 {
        return Some(EditFault::IdTaken);
    }
    None
}

/// The id of the parent of the node at a place; 0 for the root.
fn parent_id(nodes: &[Node], place: usize) -> NodeId
    requires place { place < length nodes.now }
    requires parent { slice_index (parents_of nodes.now) place < length nodes.now }
    ensures { result ≡ parent_id nodes.now place }
{
    if place == 0 {
        return NodeId(0);
    }
    NodeId(id_at(nodes, parent_at(nodes, place)))
}
