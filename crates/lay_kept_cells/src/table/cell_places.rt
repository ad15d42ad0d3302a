//! Where the cells of each context stand.

ghost use Rattle.std.specs.Prelude.{◌≡◌, ◌<◌, IfOk, Some, length, slice_get, slice_set};
ghost use Rattle.lay_shape.specs.Shapes.{cells_of};
ghost use Rattle.lay_kept_cells.specs.Table.CellPlaces.{AreCellPlaces, place_in, places_at, with_place};

use lay_context::Phase;
use lay_contexts::Contexts;
use lay_shape::{ContextPhase, cells_are_of_contexts, cells_stand_once};
use lay_units::NoMemory;
use std::alloc::Global;

/// The places of the three cells of a context.
#[derive(Clone, Copy)]
pub struct CellPlaces {
    pub measure: usize,
    pub size: usize,
    pub place: usize,
}

const NO_PLACES: CellPlaces = CellPlaces {
    measure: 0,
    size: 0,
    place: 0,
};

/// Those of these contexts, whose cells stand in this order.
pub(crate) fn cell_places(
    alloc: Global,
    contexts: &Contexts,
    cells: &[ContextPhase],
) -> Result<Vec<CellPlaces>, NoMemory>
    requires { cells.now ≡ cells_of contexts.now }
    ensures { IfOk result (λ v. AreCellPlaces contexts.now v.items) }
{
    cells_stand_once();
    let mut places = vec![in alloc; NO_PLACES; contexts.len()]?;
    for k in 0..cells.len() {
        note_place(&mut places, cell_in(contexts, cells, k), k);
    }
    Ok(places)
}

/// The cell at k, which is of one of these contexts.
pub(crate) fn cell_in(contexts: &Contexts, cells: &[ContextPhase], k: usize) -> ContextPhase
    requires cells { cells.now ≡ cells_of contexts.now }
    requires within { k < length cells.now }
    ensures cell { slice_get cells.now k ≡ Some result }
    ensures within { result.context < length contexts.now }
{
    cells_are_of_contexts();
    let _ = contexts.len();
    cells[k]
}

/// Notes where a cell stands.
fn note_place(places: &mut Vec<CellPlaces>, cell: ContextPhase, place: usize)
    requires { cell.context < length places.old.items }
    ensures { places.new.items
        ≡ slice_set places.old.items cell.context (with_place (places_at places.old.items cell.context) cell.phase place) }
{
    let noted = with_place(places[cell.context], cell.phase, place);
    places[cell.context] = noted;
}

/// These places with another one for a phase.
fn with_place(places: CellPlaces, phase: Phase, place: usize) -> CellPlaces
    ensures { result ≡ with_place places phase place }
{
    match phase {
        Phase::Measure => CellPlaces {
            measure: place,
            size: places.size,
            place: places.place,
        },
        Phase::Size => CellPlaces {
            measure: places.measure,
            size: place,
            place: places.place,
        },
        Phase::Place => CellPlaces {
            measure: places.measure,
            size: places.size,
            place,
        },
    }
}

/// The place for a phase.
pub(crate) fn place_in(places: CellPlaces, phase: Phase) -> usize
    ensures { result ≡ place_in places phase }
{
    match phase {
        Phase::Measure => places.measure,
        Phase::Size => places.size,
        Phase::Place => places.place,
    }
}
