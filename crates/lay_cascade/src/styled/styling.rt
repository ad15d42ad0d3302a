//! A document as a sheet styles it.

ghost use Rattle.std.specs.Prelude.{◌≡◌, ◌+◌, ◌<◌, ◌||◌, ◌∷◌, [], not, false, IfOk, IfErr, OnOk, length, slice_index, slice_index_or};
ghost use Rattle.lay_doc.specs.Document.{ids_of, is_text_at};
ghost use Rattle.lay_doc.specs.Changes.{changed_at, with_style};
ghost use Rattle.lay_cascade.specs.Rising.{IsNamed};
ghost use Rattle.lay_cascade.specs.Styled.Index.{IsIndexed};
ghost use Rattle.lay_cascade.specs.Styled.Told.{AreColumns};
ghost use Rattle.lay_cascade.specs.Styled.Cascade.{IsCascaded};
ghost use Rattle.lay_cascade.specs.Styled.Taken.{declares_at, takes_one, takes, IsCascadedTo};

use crate::node_names::Names;
use crate::styled::candidates::Candidate;
use crate::styled::columns::columns_of;
use crate::styled::nodes::{Cascade, winners_at};
use crate::styled::selector_index::index_of;
use crate::{Named, adjacent_of, sets_of};
use lay_doc::{Doc, Edit, Node, NodeId, is_text_at};
use lay_sheet::Sheet;
use lay_style::{Decl, Property};
use lay_units::NoMemory;
use std::alloc::Global;

/// Whether the node at a place declares a property.
fn declares(nodes: &[Node], k: usize, property: Property) -> bool
    requires { k < length nodes.now }
    ensures { result ≡ declares_at nodes.now k property }
{
    nodes[k].decls.get(property).is_some()
}

/// The id of the node at a place.
fn id_at(nodes: &[Node], k: usize) -> NodeId
    requires { k < length nodes.now }
    ensures { result.0 ≡ slice_index (ids_of nodes.now) k }
{
    nodes[k].id
}

/// Sets a declaration of the node at a place, which is no text.
fn set_at(alloc: Global, doc: &mut Doc, k: usize, decl: Decl) -> Result<(), NoMemory>
    requires place { k < length doc.old.nodes }
    requires no_text { is_text_at doc.old.nodes k ≡ false }
    ensures { OnOk result (doc.new ≡ record doc.old { nodes = changed_at k (with_style decl) doc.old.nodes }) }
{
    let node = id_at(doc.nodes(), k);
    doc.apply(alloc, &Edit::SetStyle { node, decl })?;
    Ok(())
}

/// Whether a node takes a declaration of a sheet, where it may have one of its own.
fn yields(next: Candidate, own: bool) -> bool
    ensures { result ≡ (next.weight.important || not own) }
{
    next.weight.important || !own
}

/// Lets the node at a place take a declaration, which its own yields to where it is important.
fn take_one(alloc: Global, doc: &mut Doc, k: usize, next: Candidate) -> Result<(), NoMemory>
    requires place { k < length doc.old.nodes }
    requires no_text { is_text_at doc.old.nodes k ≡ false }
    ensures { OnOk result (doc.new ≡ record doc.old { nodes = changed_at k (takes_one next) doc.old.nodes }) }
{
    let own = declares(doc.nodes(), k, next.decl.property());
    if !yields(next, own) {
        return Ok(());
    }
    set_at(alloc, doc, k, next.decl)?;
    Ok(())
}

/// Lets the node at a place take what is greatest for it, of one property.
fn take_winner(
    alloc: Global,
    doc: &mut Doc,
    k: usize,
    winner: Option<Candidate>,
) -> Result<(), NoMemory>
    requires place { k < length doc.old.nodes }
    requires no_text { is_text_at doc.old.nodes k ≡ false }
    ensures { OnOk result (doc.new ≡ record doc.old { nodes = changed_at k (takes (winner ∷ [])) doc.old.nodes }) }
{
    match winner {
        Some(next) => take_one(alloc, doc, k, next),
        None => Ok(()),
    }
}

fn winner_at(winners: &[Option<Candidate>], i: usize) -> Option<Candidate>
    requires { i < length winners.now }
    ensures { result ≡ slice_index_or winners.now i result }
{
    winners[i]
}

/// Lets the node at a place take what is greatest for it, property by property.
fn take_all(
    alloc: Global,
    doc: &mut Doc,
    k: usize,
    winners: &[Option<Candidate>],
) -> Result<(), NoMemory>
    requires place { k < length doc.old.nodes }
    requires no_text { is_text_at doc.old.nodes k ≡ false }
    ensures { OnOk result (doc.new ≡ record doc.old { nodes = changed_at k (takes winners.now) doc.old.nodes }) }
{
    for i in 0..winners.len() {
        take_winner(alloc, doc, k, winner_at(winners, i))?;
    }
    Ok(())
}

/// Lets the node at a place take what is greatest for it of a sheet.
fn style_node(alloc: Global, cascade: Cascade<'_>, doc: &mut Doc, k: usize) -> Result<(), NoMemory>
    requires named { IsNamed cascade.named.nodes.now cascade.named.names.now cascade.named.adjacent.now cascade.named.sets.now }
    requires told { AreColumns cascade.rules.now cascade.named.nodes.now cascade.named.names.now cascade.columns.now }
    requires place { k < length cascade.named.nodes.now }
    requires index { IsIndexed cascade.rules.now cascade.index.now.by_name.items cascade.index.now.rest }
    requires so_far { IsCascadedTo cascade.rules.now cascade.named.nodes.now cascade.named.names.now k doc.old.nodes }
    ensures nodes { OnOk result
        (IsCascadedTo cascade.entry.rules.now cascade.entry.named.nodes.now cascade.entry.named.names.now (k + 1) doc.new.nodes) }
    ensures width { OnOk result (doc.new.width ≡ doc.old.width) }
    ensures height { OnOk result (doc.new.height ≡ doc.old.height) }
{
    if is_text_at(cascade.named.nodes, k) {
        return Ok(());
    }
    let winners = winners_at(alloc, cascade, k)?;
    take_all(alloc, doc, k, winners.as_slice())?;
    Ok(())
}

/// A document like this one, as a sheet styles it.
fn cascaded<'a>(
    alloc: Global,
    doc: &'a Doc,
    sheet: &'a Sheet,
    names: &'a [Names],
) -> Result<Doc, NoMemory>
    requires { length names.now ≡ length doc.now.nodes }
    ensures { IfOk result (IsCascaded doc.now sheet.now names.now) }
{
    let nodes = doc.nodes();
    let adjacent = adjacent_of(alloc, nodes)?;
    let sets = sets_of(alloc, names)?;
    let named = Named {
        nodes,
        names,
        adjacent: adjacent.as_slice(),
        sets: sets.as_slice(),
    };
    let index = index_of(alloc, sheet.rules())?;
    let columns = columns_of(alloc, named, sheet.rules())?;
    let cascade = Cascade {
        named,
        rules: sheet.rules(),
        index: &index,
        columns: columns.as_slice(),
    };
    let mut new = doc.copy(alloc)?;
    for k in 0..nodes.len() {
        style_node(alloc, cascade, &mut new, k)?;
    }
    Ok(new)
}

/// The document as a sheet styles it. There is one record of names a node. Where memory runs out the document comes back as
/// it was.
pub fn styled(
    alloc: Global,
    doc: Doc,
    sheet: &Sheet,
    names: &[Names],
) -> Result<Doc, (NoMemory, Doc)>
    requires { length names.now ≡ length doc.nodes }
    ensures ok { IfOk result (IsCascaded doc sheet.now names.now) }
    ensures err { IfErr result (λ e. e.1 ≡ doc) }
{
    match cascaded(alloc, &doc, sheet, names) {
        Ok(new) => Ok(new),
        Err(_) => Err((NoMemory, doc)),
    }
}
