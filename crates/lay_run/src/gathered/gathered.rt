//! A document while its nodes are listed.

ghost use Rattle.std.specs.Prelude.{◌≡◌, ◌↔◌, ◌≤◌, length, Some, None, Err, IfOk, OnOk, OnErr};
ghost use Rattle.lay_units.specs.Limits.{most_nodes};
ghost use Rattle.lay_doc.specs.Document.{root_document};
ghost use Rattle.lay_doc.specs.Edits.{root_fault, insert_fault, after_insert, last_index};

use crate::gathered::listing::Listing;
use crate::gathered::walk::in_order;
use lay_doc::{Doc, EditFault, NewFault, NewNode, NodeId, root_fault};
use lay_units::NoMemory;
use std::alloc::Global;
use std::marker::Model;

/// The document of the nodes that are listed so far.
#[derive(Drop)]
pub struct Gathered {
    width: u32,
    height: u32,
    listing: Listing,
}

impl Model for Gathered {
    ghost use Rattle.lay_doc.specs.Document.{Document};
    ghost use Rattle.lay_run.specs.Gathered.ListedDocuments.{listed_document};
    ghost use Rattle.lay_run.specs.Gathered.Standing.{IsGathered};

    ghost Value = { Document };

    ghost view = { λ g. listed_document g.width g.height g.listing.items.items };

    ghost invariant = { λ g. IsGathered (listed_document g.width g.height g.listing.items.items) g.listing };
}

impl Gathered {
    /// The document of one root, below a viewport of 1 to 1,000,000 px each way. The root's faults are
    /// that it is no element and that its id is 0, in this order.
    pub fn new(alloc: Global, width: u32, height: u32, root: NewNode) -> Result<Gathered, NewFault>
        requires wide { 1 ≤ width }
        requires narrow { width ≤ 1000000 }
        requires high { 1 ≤ height }
        requires low { height ≤ 1000000 }
        ensures ok { IfOk result (λ d. d ≡ root_document width height root) }
        ensures bad { (f : EditFault) → (result ≡ Err (NewFault.Bad f)) ↔ (root_fault root ≡ Some f) }
    {
        if let Some(fault) = root_fault(&root) {
            return Err(NewFault::Bad(fault));
        }
        let _ = root.kind();
        match Listing::of_root(alloc, root) {
            Ok(listing) => Ok(Gathered {
                width,
                height,
                listing,
            }),
            Err(_) => Err(NewFault::NoMemory),
        }
    }

    /// The number of nodes, from 1 to 65,536.
    pub fn len(&self) -> usize
        ensures value { result ≡ length self.now.nodes }
        ensures few { result ≤ most_nodes }
    {
        self.listing.len()
    }

    /// The first fault of putting a node below its parent, as its last child.
    pub fn check_last(&self, parent: NodeId, new: &NewNode) -> Option<EditFault>
        ensures { result ≡ insert_fault self.now parent.0 (last_index self.now parent.0) new.now }
    {
        match self.listing.numbers.find(parent.0) {
            None => Some(EditFault::NoNode),
            Some(up) => self.listing.fault_at(up, new),
        }
    }

    /// Puts a node below its parent, as its last child, where `check_last` finds no fault. On an error all
    /// is as before.
    pub fn push_last(&mut self, parent: NodeId, new: NewNode) -> Result<(), NoMemory>
        requires { insert_fault self.old parent.0 (last_index self.old parent.0) new ≡ None }
        ensures ok { OnOk result (self.new ≡ after_insert self.old parent.0 (last_index self.old parent.0) new) }
        ensures err { OnErr result (self.new ≡ self.old) }
    {
        match self.listing.numbers.find(parent.0) {
            None => unreachable!(),
            Some(up) => {
                let _ = new.kind();
                self.listing.put(parent, up, new)?;
                Ok(())
            }
        }
    }

    /// The document itself.
    pub fn into_doc(self, alloc: Global) -> Result<Doc, NoMemory>
        ensures { IfOk result (λ d. d ≡ self) }
    {
        in_order(alloc, self.width, self.height, self.listing)
    }
}
