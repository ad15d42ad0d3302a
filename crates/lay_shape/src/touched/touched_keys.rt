//! The keys of the cells that an edit changes by itself.

ghost use Rattle.std.specs.Prelude.{ℕ, ◌≡◌, ◌<◌, ◌+◌, ◌++◌, ◌∷◌, [], ◌↔◌, IsTrue, IfOk, OnOk, length};
ghost use Rattle.std.specs.BTreeMap.{get};
ghost use Rattle.std.specs.Ordering.{nat_cmp};
ghost use Rattle.lay_shape.specs.Keys.{AreOfOwnNodes};
ghost use Rattle.lay_shape.specs.Touched.NumbersByNode.{IsNumberOf};
ghost use Rattle.lay_shape.specs.Touched.TouchedContexts.{IsUntouched, IsUntouchedFrom};
ghost use Rattle.lay_shape.specs.Touched.TouchedKeys.{AreTouchedKeys, AreTouchedKeysTo, keys_of};

use crate::CellKey;
use crate::needs::node_of;
use crate::touched::measured_contexts::MeasuredContexts;
use crate::touched::numbers_by_node::{number_of, numbers_by_node};
use lay_context::Phase;
use lay_contexts::Contexts;
use lay_doc::NodeId;
use lay_same::same_boxes;
use lay_units::NoMemory;
use std::alloc::Global;
use std::collections::BTreeMap;

/// The keys of the cells of the contexts that are touched by an edit of the document with the ones before into that with the ones after.
pub fn changed_keys(
    alloc: Global,
    before: &MeasuredContexts<'_>,
    after: &MeasuredContexts<'_>,
) -> Result<Vec<CellKey>, NoMemory>
    requires { AreOfOwnNodes before.now.contexts }
    ensures { IfOk result
        (λ v. AreTouchedKeys before.now.contexts after.now.contexts before.now.formatting_contexts after.now.formatting_contexts v.items) }
{
    let numbers = numbers_by_node(alloc, before.contexts())?;
    let mut keys = Vec::new(alloc);
    for j in 0..after.contexts().len() {
        push_if_touched(before, after, &numbers, j, &mut keys)?;
    }
    Ok(keys)
}

/// Adds the keys of the context with the number j, if it is touched.
fn push_if_touched(
    before: &MeasuredContexts<'_>,
    after: &MeasuredContexts<'_>,
    numbers: &BTreeMap<u32, usize>,
    j: usize,
    keys: &mut Vec<CellKey>,
) -> Result<(), NoMemory>
    requires apart { AreOfOwnNodes before.now.contexts }
    requires numbers { (id : ℕ) → IsNumberOf before.now.contexts (length before.now.contexts) id (get nat_cmp numbers.now id) }
    requires within { j < length after.now.contexts }
    requires known { AreTouchedKeysTo before.now.contexts after.now.contexts before.now.formatting_contexts after.now.formatting_contexts
        keys.old.items j }
    ensures { OnOk result
        (AreTouchedKeysTo before.now.contexts after.now.contexts before.now.formatting_contexts after.now.formatting_contexts keys.new.items
        (j + 1)) }
{
    if is_untouched(before, after, numbers, j) {
        return Ok(());
    }
    push_keys(keys, after.contexts(), j)?;
    Ok(())
}

/// Whether the context with the number j was there before: it was that of its node.
fn is_untouched(
    before: &MeasuredContexts<'_>,
    after: &MeasuredContexts<'_>,
    numbers: &BTreeMap<u32, usize>,
    j: usize,
) -> bool
    requires apart { AreOfOwnNodes before.now.contexts }
    requires numbers { (id : ℕ) → IsNumberOf before.now.contexts (length before.now.contexts) id (get nat_cmp numbers.now id) }
    requires within { j < length after.now.contexts }
    ensures { IsTrue result
        ↔ IsUntouched before.now.contexts after.now.contexts before.now.formatting_contexts after.now.formatting_contexts j }
{
    match number_of(numbers, node_of(after.contexts(), j).0) {
        Some(i) => is_untouched_from(before, i, after, j),
        None => false,
    }
}

/// Whether the context with the number i before is that with the number j after, with the same boxes and measured where that is.
fn is_untouched_from(
    before: &MeasuredContexts<'_>,
    i: usize,
    after: &MeasuredContexts<'_>,
    j: usize,
) -> bool
    requires here { i < length before.now.contexts }
    requires there { j < length after.now.contexts }
    ensures { IsTrue result
        ↔ IsUntouchedFrom before.now.contexts after.now.contexts before.now.formatting_contexts after.now.formatting_contexts i j }
{
    before.is_measured(i) == after.is_measured(j) && same_boxes(before.boxes(i), after.boxes(j))
}

/// Adds the keys of the cells of the context with the number j.
fn push_keys(keys: &mut Vec<CellKey>, contexts: &Contexts, j: usize) -> Result<(), NoMemory>
    requires { j < length contexts.now }
    ensures { OnOk result (keys.new.items ≡ keys.old.items ++ keys_of contexts.now j) }
{
    let node = node_of(contexts, j);
    push_key(keys, node, Phase::Measure)?;
    push_key(keys, node, Phase::Size)?;
    push_key(keys, node, Phase::Place)
}

/// Adds the key of the cell of the context of this node for a phase.
fn push_key(keys: &mut Vec<CellKey>, node: NodeId, phase: Phase) -> Result<(), NoMemory>
    ensures { OnOk result (keys.new.items ≡ keys.old.items ++ record { node = node; phase = phase } ∷ []) }
{
    keys.push(CellKey { node, phase })?;
    Ok(())
}
