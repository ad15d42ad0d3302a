//! Listed nodes in document order.

ghost use Rattle.std.specs.Prelude.{◌≡◌, ◌≢◌, ◌<◌, ◌≤◌, ℕ, None, length, slice_index_or, IfOk};
ghost use Rattle.lay_doc.specs.Document.{root_document};
ghost use Rattle.lay_doc.specs.Edits.{root_fault};
ghost use Rattle.lay_run.specs.Gathered.ListedDocuments.{listed_document};
ghost use Rattle.lay_run.specs.Gathered.Standing.{IsListingOf};
ghost use Rattle.lay_run.specs.declared.gathered.listing.Listed.{Listed};

use crate::gathered::listing::{Listed, Listing};
use lay_doc::{Doc, NewFault, NewNode, NodeId};
use lay_units::{NoMemory, Text};
use std::alloc::Global;
use std::mem;

/// The document of listed nodes. Each is put behind all before it in document order.
pub fn in_order(alloc: Global, width: u32, height: u32, listing: Listing) -> Result<Doc, NoMemory>
    requires { IsListingOf (listed_document width height listing.items.items) listing.items.items listing.nexts.items }
    ensures { IfOk result (λ d. d ≡ listed_document width height listing.items.items) }
{
    let nexts = listing.nexts;
    let mut items = listing.items;
    let mut at = 0;
    let root = taken(alloc, &mut items, at);
    let mut doc = root_of(alloc, width, height, root.new)?;
    for _place in 1..items.len() {
        at = nexts[at];
        let listed = taken(alloc, &mut items, at);
        doc.push_last(listed.parent, listed.new)?;
    }
    Ok(doc)
}

/// The document of its root alone.
fn root_of(alloc: Global, width: u32, height: u32, root: NewNode) -> Result<Doc, NoMemory>
    requires wide { 1 ≤ width }
    requires narrow { width ≤ 1000000 }
    requires high { 1 ≤ height }
    requires low { height ≤ 1000000 }
    requires root { root_fault root ≡ None }
    ensures { IfOk result (λ d. d ≡ root_document width height root) }
{
    match Doc::new(alloc, width, height, root) {
        Ok(doc) => Ok(doc),
        Err(NewFault::NoMemory) => Err(NoMemory),
        Err(NewFault::Bad(_)) => unreachable!(),
    }
}

/// Takes a node out of a list, and leaves an empty text in its place.
fn taken(alloc: Global, items: &mut Vec<Listed>, at: usize) -> Listed
    requires { at < length items.old.items }
    ensures value { (x : Listed) → result ≡ slice_index_or items.old.items at x }
    ensures count { length items.new.items ≡ length items.old.items }
    ensures rest { (i : ℕ) (x : Listed) → i ≢ at → slice_index_or items.new.items i x ≡ slice_index_or items.old.items i x }
{
    let empty = Text::new(String::new(alloc));
    let nothing = Listed {
        parent: NodeId(0),
        up: 0,
        depth: 0,
        new: NewNode::text(alloc, NodeId(0), empty),
    };
    mem::replace(&mut items[at], nothing)
}
