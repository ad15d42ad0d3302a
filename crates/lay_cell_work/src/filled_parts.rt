//! What a root is given, with what other roots of the context give it.

ghost use Rattle.std.specs.Prelude.{◌≡◌, [], IfOk};
ghost use Rattle.lay_measure.specs.MeasureInValue.{no_widths};
ghost use Rattle.lay_sizes.specs.OwnBoxes.{no_own_box};
ghost use Rattle.lay_cell_work.specs.CellColumns.{filled};
ghost use Rattle.lay_cell_work.specs.CellValues.{Places, Widths, own_boxes, own_pieces, own_widths};

use crate::columns::{filled_boxes, filled_pieces, filled_widths};
use lay_context::{FlowParts, MeasureParts, PlacedContext, TableParts};
use lay_context_sizes::MeasuredContext;
use lay_units::NoMemory;
use std::alloc::Global;

/// To be measured.
pub(crate) fn filled_measure(
    alloc: Global,
    parts: &MeasureParts,
    links: &[Option<usize>],
    own: &[MeasuredContext],
) -> Result<MeasureParts, NoMemory>
    ensures { IfOk result (λ i. i ≡ record parts.now { inner = filled no_widths (own_widths (Widths own.now)) links.now parts.now.inner }) }
{
    let boxes = parts.boxes().share()?;
    let inner = filled_widths(alloc, parts.inner(), links, own)?;
    let face = parts.face().clone()?;
    Ok(MeasureParts::new(boxes, inner, face))
}

/// To be placed in block flow.
pub(crate) fn filled_flow(
    alloc: Global,
    parts: &FlowParts,
    links: &[Option<usize>],
    places: &[PlacedContext],
) -> Result<FlowParts, NoMemory>
    ensures { IfOk result
        (λ i. i
        ≡ record parts.now {
          inner = filled no_own_box (own_boxes (Places places.now)) links.now parts.now.inner;
          pieces = filled [] (own_pieces (Places places.now)) links.now parts.now.pieces;
        }) }
{
    let boxes = parts.boxes().share()?;
    let sizes = parts.sizes().share()?;
    let inner = filled_boxes(alloc, parts.inner(), links, places)?;
    let _ = inner.as_slice();
    let pieces = filled_pieces(alloc, parts.pieces(), links, places)?;
    let _ = pieces.as_slice();
    let face = parts.face().clone()?;
    let flow = FlowParts::new(boxes, sizes, inner, pieces, face);
    Ok(flow.with_own_height(parts.own_height()))
}

/// To be placed as a table.
pub(crate) fn filled_table(
    alloc: Global,
    parts: &TableParts,
    links: &[Option<usize>],
    places: &[PlacedContext],
) -> Result<TableParts, NoMemory>
    ensures { IfOk result
        (λ i. i
        ≡ record parts.now {
          inner = filled no_own_box (own_boxes (Places places.now)) links.now parts.now.inner;
          pieces = filled [] (own_pieces (Places places.now)) links.now parts.now.pieces;
        }) }
{
    let boxes = parts.boxes().share()?;
    let sizes = parts.sizes().share()?;
    let table = parts.table().share()?;
    let inner = filled_boxes(alloc, parts.inner(), links, places)?;
    let _ = inner.as_slice();
    let pieces = filled_pieces(alloc, parts.pieces(), links, places)?;
    Ok(TableParts::new(boxes, sizes, table, inner, pieces))
}
