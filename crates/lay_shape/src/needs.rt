//! What a cell depends on.

ghost use Rattle.std.specs.Prelude.{◌≡◌, ◌<◌, ◌++◌, ◌∷◌, [], IfOk, OnOk, length, map, slice_index};
ghost use Rattle.lay_contexts.specs.Contexts.{context_at};
ghost use Rattle.lay_shape.specs.Dependencies.{in_phase, inner_flows, is_inner_flow, needs_of, on_way, outer_needs, way_needs};
ghost use Rattle.lay_shape.specs.Keys.{key_of, node_of};

use crate::cell_key::CellKey;
use crate::context_phase::ContextPhase;
use crate::ways::{is_absolute, way_of};
use lay_context::Phase;
use lay_contexts::Contexts;
use lay_doc::NodeId;
use lay_units::NoMemory;
use std::alloc::Global;

/// The node of the context with this number.
pub fn node_of(contexts: &Contexts, i: usize) -> NodeId
    requires { i < length contexts.now }
    ensures { result ≡ node_of contexts.now i }
{
    contexts.at(i).boxes().as_slice()[0].node
}

/// The key of a cell.
pub fn key_of(contexts: &Contexts, cell: ContextPhase) -> CellKey
    requires { cell.context < length contexts.now }
    ensures { result ≡ key_of contexts.now cell }
{
    CellKey {
        node: node_of(contexts, cell.context),
        phase: cell.phase,
    }
}

/// The keys of the cells that a cell depends on, in order.
pub fn needs_of(
    alloc: Global,
    contexts: &Contexts,
    cell: ContextPhase,
) -> Result<Vec<CellKey>, NoMemory>
    requires { cell.context < length contexts.now }
    ensures { IfOk result (λ v. v.items ≡ needs_of contexts.now cell) }
{
    let mut keys = Vec::new(alloc);
    let i = cell.context;
    match cell.phase {
        Phase::Measure => push_inner(&mut keys, contexts, i, Phase::Measure)?,
        Phase::Size => {
            push_key(&mut keys, contexts, i, Phase::Measure)?;
            push_outer(&mut keys, contexts, i)?;
        }
        Phase::Place => {
            push_key(&mut keys, contexts, i, Phase::Size)?;
            push_inner(&mut keys, contexts, i, Phase::Place)?;
            push_way(&mut keys, contexts, i)?;
        }
    }
    Ok(keys)
}

/// Adds the key of this phase of the context with the number i.
fn push_key(
    keys: &mut Vec<CellKey>,
    contexts: &Contexts,
    i: usize,
    phase: Phase,
) -> Result<(), NoMemory>
    requires { i < length contexts.now }
    ensures { OnOk result (keys.new.items ≡ keys.old.items ++ key_of contexts.now (in_phase phase i) ∷ []) }
{
    let key = key_of(contexts, ContextPhase { context: i, phase });
    keys.push(key)?;
    Ok(())
}

/// Adds those of the contexts inside it that are in flow or float.
fn push_inner(
    keys: &mut Vec<CellKey>,
    contexts: &Contexts,
    i: usize,
    phase: Phase,
) -> Result<(), NoMemory>
    requires { i < length contexts.now }
    ensures { OnOk result
        (keys.new.items ≡ keys.old.items ++ map (key_of contexts.now) (map (in_phase phase) (inner_flows contexts.now i))) }
{
    for k in 0..contexts.at(i).inner().len() {
        let number = inner_at(contexts, i, k);
        if is_inner_flow(contexts, number) {
            push_key(keys, contexts, number, phase)?;
        }
    }
    Ok(())
}

/// The number of the context whose box the one at k of the context i is, or 0.
fn inner_at(contexts: &Contexts, i: usize, k: usize) -> usize
    requires within { i < length contexts.now }
    requires place { k < length (context_at contexts.now i).inner }
    ensures number { result ≡ slice_index (context_at contexts.now i).inner k }
    ensures within { result < length contexts.now }
{
    contexts.at(i).inner()[k]
}

/// Whether a context that has the number of an inner one is in flow or floats; 0 is none's number.
fn is_inner_flow(contexts: &Contexts, number: usize) -> bool
    requires { number < length contexts.now }
    ensures { result ≡ is_inner_flow contexts.now number }
{
    number > 0 && !is_absolute(contexts, number)
}

/// Adds the sizes outside that those of the context with the number i come of.
fn push_outer(keys: &mut Vec<CellKey>, contexts: &Contexts, i: usize) -> Result<(), NoMemory>
    requires { i < length contexts.now }
    ensures { OnOk result (keys.new.items ≡ keys.old.items ++ map (key_of contexts.now) (outer_needs contexts.now i)) }
{
    if i == 0 {
        return Ok(());
    }
    if is_absolute(contexts, i) {
        return push_way(keys, contexts, i);
    }
    push_key(keys, contexts, contexts.at(i).outer(), Phase::Size)
}

/// Adds the sizes and placements of those on its way.
fn push_way(keys: &mut Vec<CellKey>, contexts: &Contexts, i: usize) -> Result<(), NoMemory>
    requires { i < length contexts.now }
    ensures { OnOk result (keys.new.items ≡ keys.old.items ++ map (key_of contexts.now) (way_needs contexts.now i)) }
{
    let alloc = *keys.allocator();
    let way = way_of(alloc, contexts, i)?;
    for place in 0..way.len() {
        push_on_way(keys, contexts, way[place])?;
    }
    Ok(())
}

/// Adds sizes and placement of one.
fn push_on_way(keys: &mut Vec<CellKey>, contexts: &Contexts, j: usize) -> Result<(), NoMemory>
    requires { j < length contexts.now }
    ensures { OnOk result (keys.new.items ≡ keys.old.items ++ map (key_of contexts.now) (on_way j)) }
{
    push_key(keys, contexts, j, Phase::Size)?;
    push_key(keys, contexts, j, Phase::Place)
}
