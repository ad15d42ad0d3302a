//! The placements of the roots of a context.

ghost use Rattle.std.specs.Prelude.{◌≡◌, IfOk, List, length};
ghost use Rattle.lay_context.specs.Local.{IsLocal};
ghost use Rattle.lay_context.specs.declared.input.Input.TheVariants.{Place as flow_given, PlaceTable as table_given};
ghost use Rattle.lay_context.specs.declared.task.Phase.TheVariants.{Place};
ghost use Rattle.lay_context.specs.declared.value.Value.TheVariants.{Place as placed};
ghost use Rattle.lay_cell_work.specs.CellInputFits.{phase_given};
ghost use Rattle.lay_cell_work.specs.CellInputs.{RootInput};
ghost use Rattle.lay_cell_work.specs.CellLocal.{IsCellLocal, whole_input};
ghost use Rattle.lay_cell_work.specs.CellValues.{Places};

use crate::cell_input::CellInput;
use crate::filled_parts::{filled_flow, filled_table};
use crate::root_input::RootInput;
use lay_abspos::StandInput;
use lay_context::{
    FlowParts, Input, PlacedContext, TableParts, Value, no_pieces, not_placed, value_of_flow,
    value_of_table,
};
use lay_units::NoMemory;
use std::alloc::Global;

/// The placement of each root, from the last one to the first.
pub(crate) fn places_of_roots(
    alloc: Global,
    input: &CellInput,
) -> Result<Vec<PlacedContext>, NoMemory>
    requires { input.now.key.phase ≡ Place }
    ensures { IfOk result (λ v. IsCellLocal input.now (Places v.items)) }
{
    let roots = input.roots();
    let count = roots.len();
    let mut places = unplaced(alloc, count)?;
    for done in 0..count {
        let r = count - 1 - done;
        let own = place_of_root(alloc, &roots[r], places.as_slice())?;
        places[r] = own;
    }
    Ok(places)
}

/// So many roots of whose places nothing is known.
fn unplaced(alloc: Global, count: usize) -> Result<Vec<PlacedContext>, NoMemory>
    ensures { IfOk result (λ v. length v.items ≡ count) }
{
    let no_pieces = no_pieces(alloc)?;
    let mut places = Vec::with_capacity(alloc, count)?;
    for _known in 0..count {
        places.push(not_placed(alloc, &no_pieces)?)?;
    }
    Ok(places)
}

/// That of one root, where those of the roots in it are known.
fn place_of_root(
    alloc: Global,
    root: &RootInput,
    places: &[PlacedContext],
) -> Result<PlacedContext, NoMemory>
    requires { phase_given root.now.given ≡ Place }
    ensures { IfOk result (λ p. (roots : List RootInput) → IsLocal (whole_input roots (Places places.now) root.now) (placed p)) }
{
    match root.given() {
        Input::Place(parts, stand) => {
            let parts = filled_flow(alloc, parts, root.links(), places)?;
            placed_in_flow(alloc, parts, stand)
        }
        Input::PlaceTable(parts, stand) => {
            let parts = filled_table(alloc, parts, root.links(), places)?;
            placed_in_table(alloc, parts, stand)
        }
        _ => unreachable!(),
    }
}

fn placed_in_flow(
    alloc: Global,
    parts: FlowParts,
    stand: &StandInput,
) -> Result<PlacedContext, NoMemory>
    ensures { IfOk result (λ p. IsLocal (flow_given parts stand.now) (placed p)) }
{
    let Value::Place(placed) = value_of_flow(alloc, parts, stand)? else {
        unreachable!()
    };
    Ok(placed)
}

fn placed_in_table(
    alloc: Global,
    parts: TableParts,
    stand: &StandInput,
) -> Result<PlacedContext, NoMemory>
    ensures { IfOk result (λ p. IsLocal (table_given parts stand.now) (placed p)) }
{
    let Value::Place(placed) = value_of_table(alloc, parts, stand)? else {
        unreachable!()
    };
    Ok(placed)
}
