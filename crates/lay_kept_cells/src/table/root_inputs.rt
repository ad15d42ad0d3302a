//! What each root of a context is given.

ghost use Rattle.std.specs.Prelude.{◌≡◌, ◌↔◌, ◌+◌, ◌<◌, IfOk, IsTrue, length};
ghost use Rattle.lay_contexts.specs.FormattingContextList.{first_number};
ghost use Rattle.lay_context.specs.Local.{input_of};
ghost use Rattle.lay_context.specs.Settling.{IsReady};
ghost use Rattle.lay_context.specs.declared.task.Phase.TheVariants.{Size};
ghost use Rattle.lay_cell_work.specs.CellLaws.SoundCells.{input_now};
ghost use Rattle.lay_cell_work.specs.PresentInputs.{root_count, root_input};
ghost use Rattle.lay_kept_cells.specs.Table.TableCells.{HaveNeeds, workings_in};

use crate::table::cell_values::CellValues;
use crate::table::linked_roots::{inner_size_input, linked_input, unlinked_root};
use lay_cell_work::RootInput;
use lay_context::{FormattedDocument, Input, Medium, Phase, Task, input_of};
use lay_shape::ContextPhase;
use lay_units::NoMemory;
use std::alloc::Global;

/// What each root is given of the context of a cell.
pub(crate) fn root_inputs(
    alloc: Global,
    medium: &Medium,
    values: &CellValues<'_>,
    cell: ContextPhase,
) -> Result<Vec<RootInput>, NoMemory>
    requires within { cell.context < length values.now.table.now.contexts }
    requires needs { HaveNeeds values.now.table.now values.now.cells.now.rows cell }
    ensures { IfOk result
        (λ v. v.items
        ≡ (input_now medium.now values.now.table.now.contexts values.now.table.now.formatting_contexts values.now.cells.now.rows
        cell.context cell.phase).roots) }
{
    if values.table.root_count(cell.context) == 1 {
        return only_root(alloc, medium, values, cell);
    }
    all_roots(alloc, medium, values, cell)
}

/// What the root of a context without anonymous tables and cells is given: it is the only one.
fn only_root(
    alloc: Global,
    medium: &Medium,
    values: &CellValues<'_>,
    cell: ContextPhase,
) -> Result<Vec<RootInput>, NoMemory>
    requires within { cell.context < length values.now.table.now.contexts }
    requires only { root_count values.now.table.now.contexts cell.context ≡ 1 }
    requires needs { HaveNeeds values.now.table.now values.now.cells.now.rows cell }
    ensures { IfOk result
        (λ v. v.items
        ≡ (input_now medium.now values.now.table.now.contexts values.now.table.now.formatting_contexts values.now.cells.now.rows
        cell.context cell.phase).roots) }
{
    let _ = values.table.contexts().len();
    let _ = values.table.formatting_contexts();
    let first = values.table.first_number(cell.context);
    let task = Task {
        context: first,
        phase: cell.phase,
    };
    let given = task_input(alloc, medium, values, task)?;
    let root = unlinked_root(alloc, given);
    let mut roots = Vec::with_capacity(alloc, 1)?;
    roots.push(root)?;
    Ok(roots)
}

/// What each root of any context is given, one after another.
fn all_roots(
    alloc: Global,
    medium: &Medium,
    values: &CellValues<'_>,
    cell: ContextPhase,
) -> Result<Vec<RootInput>, NoMemory>
    requires within { cell.context < length values.now.table.now.contexts }
    requires needs { HaveNeeds values.now.table.now values.now.cells.now.rows cell }
    ensures { IfOk result
        (λ v. v.items
        ≡ (input_now medium.now values.now.table.now.contexts values.now.table.now.formatting_contexts values.now.cells.now.rows
        cell.context cell.phase).roots) }
{
    let count = values.table.root_count(cell.context);
    let mut roots = Vec::with_capacity(alloc, count)?;
    for r in 0..count {
        roots.push(root_input(alloc, medium, values, cell, r)?)?;
    }
    Ok(roots)
}

/// What the root r is given.
fn root_input(
    alloc: Global,
    medium: &Medium,
    values: &CellValues<'_>,
    cell: ContextPhase,
    r: usize,
) -> Result<RootInput, NoMemory>
    requires within { cell.context < length values.now.table.now.contexts }
    requires root { r < root_count values.now.table.now.contexts cell.context }
    requires needs { HaveNeeds values.now.table.now values.now.cells.now.rows cell }
    ensures { IfOk result
        (λ x. x
        ≡ root_input medium.now values.now.table.now.formatting_contexts (workings_in values.now.table.now values.now.cells.now.rows)
        (first_number values.now.table.now.contexts cell.context)
        (first_number values.now.table.now.contexts cell.context + r) cell.phase) }
{
    let _ = values.table.contexts().len();
    let all = values.table.formatting_contexts();
    let _ = all.len();
    let first = values.table.first_number(cell.context);
    let task = Task {
        context: first + r,
        phase: cell.phase,
    };
    if is_inner_size(r, cell.phase) {
        let sized = inner_size_input(alloc, values, first, task.context)?;
        return Ok(sized);
    }
    let given = task_input(alloc, medium, values, task)?;
    let linked = linked_input(alloc, all, first, task.context, given)?;
    Ok(linked)
}

/// Whether a root is an anonymous one that is to be sized.
fn is_inner_size(r: usize, phase: Phase) -> bool
    ensures { IsTrue result ↔ ((phase ≡ Size) × (0 < r)) }
{
    phase == Phase::Size && r > 0
}

/// What a task is given.
fn task_input(
    alloc: Global,
    medium: &Medium,
    values: &CellValues<'_>,
    task: Task,
) -> Result<Input, NoMemory>
    requires { IsReady values.now.table.now.formatting_contexts (workings_in values.now.table.now values.now.cells.now.rows) task }
    ensures { IfOk result
        (λ i. i
        ≡ input_of medium.now values.now.table.now.formatting_contexts (workings_in values.now.table.now values.now.cells.now.rows) task) }
{
    let document = FormattedDocument {
        medium,
        contexts: values.table.formatting_contexts(),
        measured: values.table.measured(),
    };
    input_of(alloc, &document, values, task)
}
