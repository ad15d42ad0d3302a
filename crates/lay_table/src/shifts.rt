//! Baselines of rows, and how far the contents of cells are moved down in them (CSS 2.2, 17.5.3).

ghost use Rattle.std.specs.Prelude.{◌≡◌, ◌<◌, length, IfOk};
ghost use Rattle.lay_units.specs.Units.{half_of, IsNear};
ghost use Rattle.lay_grid.specs.RowBaselines.{baseline_at};
ghost use Rattle.lay_table.specs.RowBounds.{RowsFitTable};
ghost use Rattle.lay_table.specs.TableRows.{cell_own_baseline, row_baseline, shift_by, cell_shift};

use crate::cell_align::CellAlign;
use crate::cells::{align_of, cell_of, natural_box, sizes_at};
use crate::near::near_difference;
use crate::row_heights::{TableRows, cell_height};
use crate::row_needs::cell_baseline;
use crate::table_input::TableInput;
use lay_units::{NoMemory, Unit, half};

/// The baseline of the row r, from its top, in 1/64 px.
pub fn row_baseline(rows: &TableRows, r: usize) -> Unit
    requires tracks { r < length rows.now.tracks.lengths }
    requires baselines { r < length rows.now.baselines }
    requires bottoms { r < length rows.now.bottoms }
    ensures { result ≡ row_baseline rows.now r }
{
    match baseline_at(&rows.baselines, r) {
        Some(baseline) => baseline,
        None => match baseline_at(&rows.bottoms, r) {
            Some(bottom) => bottom,
            None => rows.tracks.length(r),
        },
    }
}

fn baseline_at(baselines: &[Option<Unit>], r: usize) -> Option<Unit>
    requires { r < length baselines.now }
    ensures { result ≡ baseline_at baselines.now r }
{
    baselines[r]
}

/// How far the content of the cell c is moved down in it, in 1/64 px; below 0 it is moved up. NoMemory is the answer where it
/// is more than 2^60 units.
pub fn shift_of(input: &TableInput, rows: &TableRows, c: usize) -> Result<Unit, NoMemory>
    requires fit { RowsFitTable input.now rows.now }
    requires cell { c < length input.now.table.grid.cells }
    ensures shift { IfOk result (λ u. u ≡ cell_shift input.now rows.now c) }
    ensures near { IfOk result (λ u. IsNear u.0) }
{
    let cell = cell_of(input, c);
    let row = row_baseline(rows, cell.row as usize);
    let own = own_baseline(input, rows, c);
    let height = cell_height(input, &rows.tracks, c)?;
    shift_by(
        align_of(input, c),
        row,
        own,
        natural_box(input, c).height,
        height,
    )
}

/// The baseline of the cell c itself.
fn own_baseline(input: &TableInput, rows: &TableRows, c: usize) -> Unit
    requires fit { RowsFitTable input.now rows.now }
    requires cell { c < length input.now.table.grid.cells }
    ensures { result ≡ cell_own_baseline input.now rows.now c }
{
    cell_baseline(natural_box(input, c), sizes_at(&rows.cells, c))
}

/// How far a content is moved down from where it stands by itself.
fn shift_by(
    align: CellAlign,
    row: Unit,
    own: Unit,
    natural: Unit,
    height: Unit,
) -> Result<Unit, NoMemory>
    ensures shift { IfOk result (λ u. u ≡ shift_by align row own natural height) }
    ensures near { IfOk result (λ u. IsNear u.0) }
{
    match align {
        CellAlign::Baseline => near_difference(row, own),
        CellAlign::Top => Ok(Unit(0)),
        CellAlign::Middle => Ok(half_below(near_difference(height, natural)?)),
        CellAlign::Bottom => near_difference(height, natural),
    }
}

/// The floor of half of it.
fn half_below(length: Unit) -> Unit
    requires { IsNear length.0 }
    ensures value { result ≡ record { 0 = half_of length.0 } }
    ensures near { IsNear result.0 }
{
    half(length).0
}
