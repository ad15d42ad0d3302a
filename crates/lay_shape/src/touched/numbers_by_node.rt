//! The numbers of contexts by their nodes.

ghost use Rattle.std.specs.Prelude.{ℕ, ◌≡◌, length, IfOk};
ghost use Rattle.std.specs.BTreeMap.{get};
ghost use Rattle.std.specs.Ordering.{nat_cmp};
ghost use Rattle.lay_shape.specs.Keys.{node_of};
ghost use Rattle.lay_shape.specs.Touched.NumbersByNode.{IsNumberOf};

use crate::needs::node_of;
use lay_contexts::Contexts;
use lay_doc::add_number;
use lay_units::NoMemory;
use std::alloc::Global;
use std::collections::BTreeMap;

/// For each node of a context the number of this.
pub(crate) fn numbers_by_node(
    alloc: Global,
    contexts: &Contexts,
) -> Result<BTreeMap<u32, usize>, NoMemory>
    ensures { IfOk result (λ m. (id : ℕ) → IsNumberOf contexts.now (length contexts.now) id (get nat_cmp m id)) }
{
    let mut numbers = BTreeMap::new(alloc);
    for i in 0..contexts.len() {
        add_number(&mut numbers, node_of(contexts, i).0, i)?;
    }
    Ok(numbers)
}

/// The number that an id has.
pub(crate) fn number_of(numbers: &BTreeMap<u32, usize>, id: u32) -> Option<usize>
    ensures { result ≡ get nat_cmp numbers.now id }
{
    numbers.get(&id).copied()
}
