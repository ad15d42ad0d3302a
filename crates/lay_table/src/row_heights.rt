//! The rows of a table: their heights and their baselines.

ghost use Rattle.std.specs.Prelude.{◌≡◌, ◌<◌, length, map, All, IfOk};
ghost use Rattle.lay_units.specs.Units.{IsUsedSize, IsNear};
ghost use Rattle.lay_grid.specs.RowsFit.{RowCellFits, RowsFit};
ghost use Rattle.lay_sizes.specs.SizeBounds.{SizeFits};
ghost use Rattle.lay_sizes.specs.SizeColumns.{HaveSizeBounds};
ghost use Rattle.lay_table.specs.RowBounds.{RowsFitTable};
ghost use Rattle.lay_table.specs.TableRows.{AreTracks, HasRows, bottom_of, bottoms_of, cell_height, table_content, height_as_size};

use crate::cells::{cell_boxes, cell_of, sizes_at};
use crate::near::near_difference;
use crate::row_needs::{least_height, row_cell, rows_in};
use crate::table_input::TableInput;
use crate::tracks::Tracks;
use lay_grid::{RowCell, RowsIn, row_baselines, rows};
use lay_sizes::BoxSizes;
use lay_units::{NoMemory, Unit, clamp_size};
use std::alloc::Global;
use std::marker::Model;

/// The rows of a table (CSS 2.2, 17.5.3), beside the used sizes of its cells, in 1/64 px.
#[derive(Drop)]
pub struct TableRows {
    /// The used sizes of the cells.
    pub(crate) cells: Vec<BoxSizes>,
    /// Where each row begins, and how high it is.
    pub(crate) tracks: Tracks,
    /// The baselines that the cells of rows share.
    pub(crate) baselines: Vec<Option<Unit>>,
    /// The lowest bottom content edges of the cells that begin in rows.
    pub(crate) bottoms: Vec<Option<Unit>>,
}

impl Model for TableRows {
    ghost use Rattle.lay_table.specs.TableRows.{TableRows as Plain};

    ghost Value = { Plain };

    ghost view = { λ r. record { cells = r.cells.items; tracks = r.tracks; baselines = r.baselines.items; bottoms = r.bottoms.items } };
}

impl TableRows {
    ghost use Rattle.std.specs.Prelude.{◌≡◌};

    /// Where each row begins, counted from the top of the content of the table box, and how high it is.
    pub fn tracks(&self) -> &Tracks
        ensures { result.now ≡ self.now.tracks }
    {
        &self.tracks
    }
}

/// The rows of a table (CSS 2.2, 17.5.3). NoMemory is also the answer where one stands more than 2^60 units away, which it does
/// in no document within the limits, and for more rows than 2^30.
pub fn table_rows(alloc: Global, input: &TableInput) -> Result<TableRows, NoMemory>
    ensures rows { IfOk result (HasRows input.now) }
    ensures fit { IfOk result (RowsFitTable input.now) }
{
    let cells = cell_boxes(alloc, input)?;
    let rows_in = rows_in(alloc, input, &cells)?;
    let tracks = row_tracks(alloc, &rows_in)?;
    let count = tracks.len();
    let baselines = row_baselines(alloc, rows_in.cells.as_slice(), count)?;
    let edges = bottoms_of(alloc, input, &cells, &tracks)?;
    let bottoms = row_baselines(alloc, &edges, count)?;
    Ok(TableRows {
        cells,
        tracks,
        baselines,
        bottoms,
    })
}

/// Rows that are as low as they can be.
fn row_tracks(alloc: Global, rows_in: &RowsIn) -> Result<Tracks, NoMemory>
    requires { RowsFit rows_in.now }
    ensures tracks { IfOk result (AreTracks rows_in.now) }
    ensures count { IfOk result (λ t. length t.lengths ≡ length rows_in.now.own) }
{
    let heights = rows(alloc, rows_in)?;
    let heights = used_sizes(alloc, heights.as_slice())?;
    Tracks::new(alloc, heights, rows_in.spacing)
}

/// These heights as used sizes.
fn used_sizes(alloc: Global, heights: &[Unit]) -> Result<Vec<Unit>, NoMemory>
    ensures { IfOk result (λ v. v.items ≡ map height_as_size heights.now) }
{
    let mut used = Vec::new(alloc);
    for height in heights {
        used.push(used_size(*height))?;
    }
    Ok(used)
}

fn used_size(height: Unit) -> Unit
    ensures value { result ≡ height_as_size height }
    ensures size { IsUsedSize result.0 }
{
    clamp_size(i128::from(height.0))
}

/// The cells, as if they were at the baseline with their bottom content edges.
fn bottoms_of(
    alloc: Global,
    input: &TableInput,
    cells: &[BoxSizes],
    tracks: &Tracks,
) -> Result<Vec<RowCell>, NoMemory>
    requires count { length cells.now ≡ length input.now.table.grid.cells }
    requires sizes { HaveSizeBounds cells.now }
    ensures bottoms { IfOk result (λ v. v.items ≡ bottoms_of input.now cells.now tracks.now) }
    ensures fit { IfOk result (λ v. All (RowCellFits (length input.now.table.grid.rows)) v.items) }
{
    let mut bottoms = Vec::new(alloc);
    for c in 0..cells.len() {
        bottoms.push(bottom_of(input, cells, tracks, c)?)?;
    }
    Ok(bottoms)
}

/// The cell c so.
fn bottom_of(
    input: &TableInput,
    cells: &[BoxSizes],
    tracks: &Tracks,
    c: usize,
) -> Result<RowCell, NoMemory>
    requires count { length cells.now ≡ length input.now.table.grid.cells }
    requires sizes { HaveSizeBounds cells.now }
    requires cell { c < length cells.now }
    ensures bottom { IfOk result (λ r. r ≡ bottom_of input.now cells.now tracks.now c) }
    ensures fits { IfOk result (RowCellFits (length input.now.table.grid.rows)) }
{
    let cell = cell_of(input, c);
    let height = cell_height(input, tracks, c)?;
    let bottom = near_difference(height, sizes_at(cells, c).edges.bottom)?;
    Ok(row_cell(cell, height, Some(bottom)))
}

/// The height of the border box of the cell c, in 1/64 px: that of its rows, with the spacings between them. NoMemory is the
/// answer where it is more than 2^60 units.
pub fn cell_height(input: &TableInput, tracks: &Tracks, c: usize) -> Result<Unit, NoMemory>
    requires { c < length input.now.table.grid.cells }
    ensures height { IfOk result (λ u. u ≡ cell_height input.now tracks.now c) }
    ensures near { IfOk result (λ u. IsNear u.0) }
{
    let cell = cell_of(input, c);
    tracks.extent(cell.row as usize, cell.rows as usize)
}

/// The height of the content of the table box, a used size in 1/64 px.
pub fn table_content(table: &BoxSizes, tracks: &Tracks) -> Unit
    requires { SizeFits table.now }
    ensures value { result ≡ table_content table.now tracks.now }
    ensures size { IsUsedSize result.0 }
{
    if tracks.len() == 0 {
        return least_height(table);
    }
    used_size(tracks.end())
}
