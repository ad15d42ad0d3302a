//! What the nodes of a document are called, in document order.

ghost use Rattle.std.specs.Prelude.{◌≡◌, ◌<◌, ◌-◌, IfOk, length, take, replicate, set, slice_index_or};
ghost use Rattle.lay_doc.specs.Document.{IsDocument};
ghost use Rattle.lay_json.specs.Styled.NamesByPlace.{no_names, names_by_place, IsNamedOne};

use lay_cascade::node_names::{Names, NamesList};
use lay_doc::{Doc, NodeId};
use lay_units::NoMemory;
use std::alloc::Global;

/// No names, so many times.
fn none_named(alloc: Global, count: usize) -> Result<Vec<Names>, NoMemory>
    ensures { IfOk result (λ v. v.items ≡ replicate count no_names) }
{
    let mut named = Vec::new(alloc);
    for _k in 0..count {
        named.push(Names::none(alloc))?;
    }
    Ok(named)
}

fn put_names(named: &mut Vec<Names>, place: usize, names: Names)
    requires { place < length named.old.items }
    ensures { named.new.items ≡ set named.old.items place names }
{
    named[place] = names;
}

/// Gives the names to the node with this id, where there is one.
fn name_one(doc: &Doc, id: NodeId, names: Names, named: &mut Vec<Names>)
    requires valid { IsDocument doc.now }
    requires count { length named.old.items ≡ length doc.now.nodes }
    ensures count { length named.new.items ≡ length doc.now.nodes }
    ensures names { IsNamedOne doc.now.nodes id.0 names named.old.items named.new.items }
{
    match doc.find(id) {
        Some(place) => put_names(named, place, names),
        None => {}
    }
}

fn id_at(listed: &[NodeId], i: usize) -> NodeId
    requires { i < length listed.now }
    ensures { result ≡ slice_index_or listed.now i result }
{
    listed[i]
}

/// The last of some names, which is taken away.
fn take_last(names: &mut Vec<Names>) -> Names
    requires { 0 < length names.old.items }
    ensures last { result ≡ slice_index_or names.old.items (length names.old.items - 1) result }
    ensures rest { names.new.items ≡ take (length names.old.items - 1) names.old.items }
{
    match names.pop() {
        Some(last) => last,
        None => unreachable!(),
    }
}

/// What the nodes of a document are called, where names are listed beside ids in this order.
pub(crate) fn by_place(
    alloc: Global,
    doc: &Doc,
    listed: &[NodeId],
    names: NamesList,
) -> Result<Vec<Names>, NoMemory>
    ensures { IfOk result (λ v. v.items ≡ names_by_place listed.now names doc.now.nodes) }
{
    let nodes = doc.nodes();
    let mut named = none_named(alloc, nodes.len())?;
    let mut rest = names.into_vec();
    rest.truncate(listed.len());
    let count = rest.len();
    for done in 0..count {
        let id = id_at(listed, count - 1 - done);
        let last = take_last(&mut rest);
        name_one(doc, id, last, &mut named);
    }
    Ok(named)
}
