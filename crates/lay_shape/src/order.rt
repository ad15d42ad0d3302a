//! The order of the cells.

ghost use Rattle.std.specs.Prelude.{◌≡◌, ◌++◌, IfOk, OnOk, map, reverse};
ghost use Rattle.std.specs.List.{range_with_len};
ghost use Rattle.lay_shape.specs.Dependencies.{in_phase};
ghost use Rattle.lay_shape.specs.Shapes.{cells_of};

use crate::context_phase::ContextPhase;
use crate::levels::by_level;
use lay_context::Phase;
use lay_contexts::Contexts;
use lay_units::NoMemory;
use std::alloc::Global;

/// The cells of these contexts, in order.
pub fn cells_of(alloc: Global, contexts: &Contexts) -> Result<Vec<ContextPhase>, NoMemory>
    ensures { IfOk result (λ v. v.items ≡ cells_of contexts.now) }
{
    let lists = by_level(alloc, contexts)?;
    let mut cells = Vec::with_capacity(alloc, 3 * contexts.len())?;
    let numbers = numbers(alloc, contexts.len())?;
    push_falling(&mut cells, Phase::Measure, &numbers)?;
    for level in 0..lists.len() {
        push_rising(&mut cells, Phase::Size, lists[level].as_slice())?;
        push_falling(&mut cells, Phase::Place, lists[level].as_slice())?;
    }
    Ok(cells)
}

/// The numbers below n.
fn numbers(alloc: Global, n: usize) -> Result<Vec<usize>, NoMemory>
    ensures { IfOk result (λ v. v.items ≡ range_with_len 0 n) }
{
    let mut numbers = Vec::with_capacity(alloc, n)?;
    for i in 0..n {
        numbers.push(i)?;
    }
    Ok(numbers)
}

/// Adds this phase of the contexts with these numbers, in order.
fn push_rising(
    cells: &mut Vec<ContextPhase>,
    phase: Phase,
    numbers: &[usize],
) -> Result<(), NoMemory>
    ensures { OnOk result (cells.new.items ≡ cells.old.items ++ map (in_phase phase) numbers.now) }
{
    for k in 0..numbers.len() {
        cells.push(in_phase(phase, numbers[k]))?;
    }
    Ok(())
}

/// Adds it the other way round.
fn push_falling(
    cells: &mut Vec<ContextPhase>,
    phase: Phase,
    numbers: &[usize],
) -> Result<(), NoMemory>
    ensures { OnOk result (cells.new.items ≡ cells.old.items ++ map (in_phase phase) (reverse numbers.now)) }
{
    for k in 0..numbers.len() {
        cells.push(in_phase(phase, numbers[numbers.len() - 1 - k]))?;
    }
    Ok(())
}

fn in_phase(phase: Phase, i: usize) -> ContextPhase
    ensures { result ≡ in_phase phase i }
{
    ContextPhase { context: i, phase }
}
