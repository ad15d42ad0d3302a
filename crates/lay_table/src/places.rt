//! Where the parts of a table stand: the workings.

ghost use Rattle.std.specs.Prelude.{◌≡◌, ◌<◌, length, IfOk};
ghost use Rattle.lay_flow.specs.Blocks.FlowPlaces.{IsNearPlace, box_place_at};
ghost use Rattle.lay_placements.specs.Corners.{IsCornerNear};
ghost use Rattle.lay_table.specs.Captions.{ArePlaces, captions_of};
ghost use Rattle.lay_table.specs.PlaceBounds.{PlacesFit};
ghost use Rattle.lay_table.specs.WrapperFlow.{places_in_wrapper};
ghost use Rattle.lay_table.specs.TableStandings.{HasTablePlaces, column_spacing, columns_of, table_content_corner, content_corner_at};

use crate::captions::Captions;
use crate::cells::table_sizes;
use crate::row_heights::{TableRows, table_rows};
use crate::table_input::TableInput;
use crate::tracks::Tracks;
use crate::wrapper_flow::wrapper_flow;
use lay_flow::blocks::{BoxPlace, FlowPlaces};
use lay_placements::{Corner, near_sum};
use lay_table_grid::TableGrid;
use lay_units::{NoMemory, Unit};
use std::alloc::Global;
use std::marker::Model;

/// Where the parts of a table stand, in 1/64 px.
#[derive(Drop)]
pub(crate) struct TablePlaces {
    pub rows: TableRows,
    pub columns: Tracks,
    /// Where the boxes of the wrapper's context stand.
    pub flow: FlowPlaces,
    /// The corner of the content of the table box.
    pub content: Corner,
}

impl Model for TablePlaces {
    ghost use Rattle.lay_table.specs.WrapperFlow.{places_in_wrapper};
    ghost use Rattle.lay_table.specs.TableStandings.{TablePlaces as Plain};

    ghost Value = { Plain };

    ghost view = { λ p. record { rows = p.rows; columns = p.columns; flow = p.flow; content = p.content } };
}

/// Where the parts of a table with these captions stand. NoMemory is also the answer where one stands more than 2^60 units
/// away, which it does in no document within the limits.
pub(crate) fn table_places(
    alloc: Global,
    input: &TableInput,
    captions: &Captions,
) -> Result<TablePlaces, NoMemory>
    requires captions { captions.now ≡ captions_of input.now.boxes }
    requires above { ArePlaces (length input.now.boxes) captions.now.above }
    requires below { ArePlaces (length input.now.boxes) captions.now.below }
    ensures places { IfOk result (HasTablePlaces input.now) }
    ensures fit { IfOk result (PlacesFit input.now) }
{
    let rows = table_rows(alloc, input)?;
    let columns = columns_of(alloc, input)?;
    let flow = wrapper_flow(alloc, input, rows.tracks(), captions)?;
    let content = content_corner(input, &flow, captions)?;
    Ok(TablePlaces {
        rows,
        columns,
        flow,
        content,
    })
}

/// The columns.
fn columns_of(alloc: Global, input: &TableInput) -> Result<Tracks, NoMemory>
    ensures value { IfOk result (λ t. t ≡ columns_of input.now) }
    ensures count { IfOk result (λ t. length t.lengths ≡ input.now.table.grid.columns) }
{
    let widths = copied(alloc, input.table().columns())?;
    Tracks::new(alloc, widths, column_spacing(input.grid()))
}

fn copied(alloc: Global, lengths: &[Unit]) -> Result<Vec<Unit>, NoMemory>
    ensures { IfOk result (λ v. v.items ≡ lengths.now) }
{
    let mut copy = Vec::new(alloc);
    copy.extend_from_slice(lengths)?;
    Ok(copy)
}

/// The spacing between columns.
fn column_spacing(grid: &TableGrid) -> Unit
    ensures { result ≡ column_spacing grid.now }
{
    if grid.columns() == 0 {
        return Unit(0);
    }
    grid.spacing().across
}

/// Where the flow puts its box with this number.
pub(crate) fn place_at(flow: &FlowPlaces, n: usize) -> BoxPlace
    requires { n < length flow.now.boxes }
    ensures value { result ≡ box_place_at flow.now.boxes n }
    ensures near { IsNearPlace result }
{
    flow.boxes()[n]
}

/// The corner of the content of the table box.
fn content_corner(
    input: &TableInput,
    flow: &FlowPlaces,
    captions: &Captions,
) -> Result<Corner, NoMemory>
    requires captions { captions.now ≡ captions_of input.now.boxes }
    requires count { length flow.now.boxes ≡ length (places_in_wrapper input.now) }
    ensures corner { IfOk result (λ c. c ≡ table_content_corner input.now flow.now) }
    ensures near { IfOk result IsCornerNear }
{
    content_in(input, place_at(flow, captions.table_number()))
}

/// That of a table box whose border box stands here.
fn content_in(input: &TableInput, place: BoxPlace) -> Result<Corner, NoMemory>
    ensures corner { IfOk result (λ c. c ≡ content_corner_at input.now place) }
    ensures near { IfOk result IsCornerNear }
{
    let table = table_sizes(input);
    let x = near_sum(place.corner.x, table.edges.left)?;
    let y = near_sum(place.corner.y, table.edges.top)?;
    Ok(Corner { x, y })
}
