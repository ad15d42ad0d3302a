//! The keys of the cells that an edit changes by itself, where it leaves which contexts there are.

ghost use Rattle.std.specs.Prelude.{◌≡◌, ◌<◌, ◌+◌, ◌++◌, ◌∷◌, [], ◌↔◌, IsTrue, IfOk, OnOk, length};
ghost use Rattle.lay_contexts.specs.Contexts.{boxes_in};
ghost use Rattle.lay_shape.specs.Keys.{AreOfOwnNodes, node_of};
ghost use Rattle.lay_shape.specs.Touched.ContextFlags.{AreContextFlags};
ghost use Rattle.lay_shape.specs.Touched.TouchedContexts.{IsUntouched};
ghost use Rattle.lay_shape.specs.Touched.TouchedKeys.{AreTouchedKeys, AreTouchedKeysTo, keys_of};
ghost use Rattle.lay_shape.specs.KeptShapes.KeptBoxes.{KeepBoxes};

use crate::CellKey;
use crate::kept_shapes::measured_list::MeasuredList;
use crate::needs::node_of;
use lay_context::Phase;
use lay_contexts::Contexts;
use lay_doc::NodeId;
use lay_same::same_boxes;
use lay_units::NoMemory;
use std::alloc::Global;

/// The keys of the cells of the contexts that an edit touches, where all but those with such a flag keep their boxes.
pub fn keys_of_touched(
    alloc: Global,
    before: &MeasuredList<'_>,
    after: &MeasuredList<'_>,
    made: &[bool],
) -> Result<Vec<CellKey>, NoMemory>
    requires flags { AreContextFlags before.now.contexts.now before.now.formatting_contexts.now before.now.measured.now }
    requires later_flags { AreContextFlags after.now.contexts.now after.now.formatting_contexts.now after.now.measured.now }
    requires apart { AreOfOwnNodes before.now.contexts.now }
    requires kept { KeepBoxes before.now.contexts.now after.now.contexts.now made.now }
    ensures { IfOk result
        (λ v.
        AreTouchedKeys before.now.contexts.now after.now.contexts.now before.now.formatting_contexts.now after.now.formatting_contexts.now
        v.items) }
{
    let mut keys = Vec::new(alloc);
    for j in 0..after.contexts.len() {
        push_if_touched(before, after, made, j, &mut keys)?;
    }
    Ok(keys)
}

/// Adds the keys of the context with the number j, if it is touched.
fn push_if_touched(
    before: &MeasuredList<'_>,
    after: &MeasuredList<'_>,
    made: &[bool],
    j: usize,
    keys: &mut Vec<CellKey>,
) -> Result<(), NoMemory>
    requires flags { AreContextFlags before.now.contexts.now before.now.formatting_contexts.now before.now.measured.now }
    requires later_flags { AreContextFlags after.now.contexts.now after.now.formatting_contexts.now after.now.measured.now }
    requires apart { AreOfOwnNodes before.now.contexts.now }
    requires kept { KeepBoxes before.now.contexts.now after.now.contexts.now made.now }
    requires within { j < length after.now.contexts.now }
    requires known { AreTouchedKeysTo before.now.contexts.now after.now.contexts.now before.now.formatting_contexts.now
        after.now.formatting_contexts.now keys.old.items j }
    ensures { OnOk result
        (AreTouchedKeysTo before.now.contexts.now after.now.contexts.now before.now.formatting_contexts.now
        after.now.formatting_contexts.now keys.new.items (j + 1)) }
{
    if is_untouched(before, after, made, j) {
        return Ok(());
    }
    push_keys(keys, after.contexts, j)?;
    Ok(())
}

/// Whether the context with the number j has the boxes that it had, and is measured where it was.
fn is_untouched(
    before: &MeasuredList<'_>,
    after: &MeasuredList<'_>,
    made: &[bool],
    j: usize,
) -> bool
    requires flags { AreContextFlags before.now.contexts.now before.now.formatting_contexts.now before.now.measured.now }
    requires later_flags { AreContextFlags after.now.contexts.now after.now.formatting_contexts.now after.now.measured.now }
    requires apart { AreOfOwnNodes before.now.contexts.now }
    requires kept { KeepBoxes before.now.contexts.now after.now.contexts.now made.now }
    requires within { j < length after.now.contexts.now }
    ensures { IsTrue result
        ↔ IsUntouched before.now.contexts.now after.now.contexts.now before.now.formatting_contexts.now after.now.formatting_contexts.now
        j }
{
    if !same_flag(before.measured[j], after.measured[j]) {
        return false;
    }
    if !made[j] {
        return true;
    }
    same_context(before.contexts, after.contexts, j)
}

/// Whether two flags say the same.
fn same_flag(a: bool, b: bool) -> bool
    ensures { IsTrue result ↔ (a ≡ b) }
{
    a == b
}

/// Whether the context with the number j has the same boxes in both.
pub(crate) fn same_context(before: &Contexts, after: &Contexts, j: usize) -> bool
    requires here { j < length before.now }
    requires there { j < length after.now }
    ensures { IsTrue result ↔ (boxes_in before.now j ≡ boxes_in after.now j) }
{
    same_boxes(
        before.at(j).boxes().as_slice(),
        after.at(j).boxes().as_slice(),
    )
}

/// Adds the keys of the cells of the context with the number j.
fn push_keys(keys: &mut Vec<CellKey>, contexts: &Contexts, j: usize) -> Result<(), NoMemory>
    requires { j < length contexts.now }
    ensures { OnOk result (keys.new.items ≡ keys.old.items ++ keys_of contexts.now j) }
{
    let node = node_of(contexts, j);
    push_key(keys, node, Phase::Measure)?;
    push_key(keys, node, Phase::Size)?;
    push_key(keys, node, Phase::Place)
}

/// Adds the key of the cell of the context of this node for a phase.
fn push_key(keys: &mut Vec<CellKey>, node: NodeId, phase: Phase) -> Result<(), NoMemory>
    ensures { OnOk result (keys.new.items ≡ keys.old.items ++ record { node = node; phase = phase } ∷ []) }
{
    keys.push(CellKey { node, phase })?;
    Ok(())
}
