//! The shape of the cells of a document.

ghost use Rattle.std.specs.Prelude.{◌≡◌, ◌<◌, ◌+◌, IfOk, OnOk, Some, length, slice_get};
ghost use Rattle.lay_shape.specs.Building.{entries_to};
ghost use Rattle.lay_shape.specs.Keys.{AreOfOwnNodes};
ghost use Rattle.lay_shape.specs.Shapes.{cells_of, shape_of};

use crate::cell_key::CellKey;
use crate::context_phase::ContextPhase;
use crate::needs::{key_of, needs_of};
use crate::order::cells_of;
use lay_cells::Shape;
use lay_contexts::Contexts;
use lay_units::NoMemory;
use std::alloc::Global;

/// The cells of these contexts, three for each, with what each depends on.
pub fn shape(alloc: Global, contexts: &Contexts) -> Result<Shape<CellKey>, NoMemory>
    requires { AreOfOwnNodes contexts.now }
    ensures { IfOk result (λ s. s ≡ shape_of contexts.now) }
{
    let cells = cells_of(alloc, contexts)?;
    let mut shape = Shape::new(alloc);
    for k in 0..cells.len() {
        push_cell(alloc, &mut shape, contexts, &cells, k)?;
    }
    Ok(shape)
}

/// Adds the cell at k.
fn push_cell(
    alloc: Global,
    shape: &mut Shape<CellKey>,
    contexts: &Contexts,
    cells: &[ContextPhase],
    k: usize,
) -> Result<(), NoMemory>
    requires apart { AreOfOwnNodes contexts.now }
    requires cells { cells.now ≡ cells_of contexts.now }
    requires within { k < length cells.now }
    requires before { shape.old ≡ entries_to contexts.now k }
    ensures { OnOk result (shape.new ≡ entries_to contexts.now (k + 1)) }
{
    let _ = contexts.len();
    let cell = cell_at(contexts, cells, k);
    let needs = needs_of(alloc, contexts, cell)?;
    shape.push(key_of(contexts, cell), needs.as_slice())?;
    Ok(())
}

/// The cell at k, which is of one of these contexts.
fn cell_at(contexts: &Contexts, cells: &[ContextPhase], k: usize) -> ContextPhase
    requires cells { cells.now ≡ cells_of contexts.now }
    requires within { k < length cells.now }
    ensures cell { slice_get cells.now k ≡ Some result }
    ensures within { result.context < length contexts.now }
{
    let _ = contexts.len();
    cells[k]
}
