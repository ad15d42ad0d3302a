//! Where the boxes of a table stand.

ghost use Rattle.std.specs.Prelude.{ℕ, ◌≡◌, ◌<◌, ◌==◌, length, slice_index, IfOk, OnOk, if◌then◌else◌};
ghost use Rattle.lay_units.specs.Units.{IsNear};
ghost use Rattle.lay_flow.specs.Blocks.FlowPlaces.{IsNearPlace, box_place_at};
ghost use Rattle.lay_placements.specs.Corners.{IsCornerNear};
ghost use Rattle.lay_placements.specs.Standings.{AreNearStandings, IsStandingNear, standing_at};
ghost use Rattle.lay_table_grid.specs.TableBoxes.{is_row_group_kind};
ghost use Rattle.lay_table.specs.Captions.{ArePlaces, captions_of};
ghost use Rattle.lay_table.specs.GroupCounts.{AreGroupCounts};
ghost use Rattle.lay_table.specs.PlaceBounds.{AreStandings, PlacesFit};
ghost use Rattle.lay_table.specs.TableStandings.{cell_places, cell_standing, corner_within, table_flow_standing, group_height};
ghost use Rattle.lay_table.specs.TableStandings.{group_or_none, group_standing, number_of, row_places, row_standing, standing_by};
ghost use Rattle.lay_table.specs.WrapperFlow.{places_in_wrapper};

use crate::captions::Captions;
use crate::cells::cell_of;
use crate::groups::{GroupCounts, group_counts, rows_before, rows_within_box};
use crate::places::{TablePlaces, place_at};
use crate::row_heights::cell_height;
use crate::shifts::shift_of;
use crate::table_input::TableInput;
use crate::tracks::Tracks;
use lay_flow::blocks::BoxPlace;
use lay_placements::{Corner, Standing, near_position, near_sum};
use lay_table_grid::is_row_group;
use lay_units::{NoMemory, Unit};
use std::alloc::Global;

/// Where the boxes of a table with these captions stand, in their order. NoMemory is also the answer where one stands more than
/// 2^60 units away, which it does in no document within the limits.
pub(crate) fn standings_of(
    alloc: Global,
    input: &TableInput,
    places: &TablePlaces,
    captions: &Captions,
) -> Result<Vec<Standing>, NoMemory>
    requires fit { PlacesFit input.now places.now }
    requires captions { captions.now ≡ captions_of input.now.boxes }
    requires above { ArePlaces (length input.now.boxes) captions.now.above }
    requires below { ArePlaces (length input.now.boxes) captions.now.below }
    ensures { IfOk result (λ v. AreStandings input.now places.now v.items) }
{
    let mut standings = groups_or_none(alloc, input, places)?;
    put_cells(&mut standings, input, places)?;
    put_rows(&mut standings, input, places)?;
    let in_flow = places_in_wrapper(alloc, input, captions)?;
    put_in_flow(&mut standings, places, &in_flow);
    Ok(standings)
}

/// Where the row groups stand, and nothing of other boxes.
fn groups_or_none(
    alloc: Global,
    input: &TableInput,
    places: &TablePlaces,
) -> Result<Vec<Standing>, NoMemory>
    requires fit { PlacesFit input.now places.now }
    ensures count { IfOk result (λ v. length v.items ≡ length input.now.boxes) }
    ensures each { IfOk result (λ v. (k : ℕ) → k < length input.now.boxes → standing_at v.items k ≡ group_or_none input.now places.now k) }
    ensures near { IfOk result (λ v. AreNearStandings v.items) }
{
    let counts = group_counts(alloc, input.boxes(), input.grid().rows())?;
    let mut standings = Vec::new(alloc);
    for k in 0..input.boxes().len() {
        standings.push(group_or_none(input, places, &counts, k)?)?;
    }
    Ok(standings)
}

fn group_or_none(
    input: &TableInput,
    places: &TablePlaces,
    counts: &GroupCounts,
    k: usize,
) -> Result<Standing, NoMemory>
    requires fit { PlacesFit input.now places.now }
    requires counts { AreGroupCounts input.now.boxes input.now.table.grid.rows counts.now }
    requires place { k < length input.now.boxes }
    ensures standing { IfOk result (λ s. s ≡ group_or_none input.now places.now k) }
    ensures near { IfOk result IsStandingNear }
{
    if is_row_group(&input.boxes()[k].kind) {
        return group_standing(input, places, counts, k);
    }
    Ok(NO_STANDING)
}

const NO_STANDING: Standing = Standing {
    corner: Corner {
        x: Unit(0),
        y: Unit(0),
    },
    height: Unit(0),
    shift: Unit(0),
};

/// The row group at k.
fn group_standing(
    input: &TableInput,
    places: &TablePlaces,
    counts: &GroupCounts,
    k: usize,
) -> Result<Standing, NoMemory>
    requires fit { PlacesFit input.now places.now }
    requires counts { AreGroupCounts input.now.boxes input.now.table.grid.rows counts.now }
    requires place { k < length input.now.boxes }
    ensures standing { IfOk result (λ s. s ≡ group_standing input.now places.now k) }
    ensures near { IfOk result IsStandingNear }
{
    let rows = places.rows.tracks();
    let first = rows_before(counts, input.boxes(), input.grid().rows(), k);
    let count = rows_within_box(counts, input.boxes(), input.grid().rows(), k);
    Ok(Standing {
        corner: corner_inside(places.content, places.columns.start(0), rows.start(first))?,
        height: group_height(rows, first, count)?,
        shift: Unit(0),
    })
}

/// The height of a row group of so many rows from this one on.
fn group_height(rows: &Tracks, first: usize, count: usize) -> Result<Unit, NoMemory>
    ensures height { IfOk result (λ u. u ≡ group_height rows.now first count) }
    ensures near { IfOk result (λ u. IsNear u.0) }
{
    if count == 0 {
        return Ok(Unit(0));
    }
    rows.extent(first, count)
}

/// A corner that lies so far in this one.
fn corner_inside(content: Corner, across: Unit, down: Unit) -> Result<Corner, NoMemory>
    ensures corner { IfOk result (λ c. c ≡ corner_within content across.0 down.0) }
    ensures near { IfOk result IsCornerNear }
{
    let x = near_sum(content.x, across)?;
    let y = near_sum(content.y, down)?;
    Ok(Corner { x, y })
}

/// Puts each cell where it stands.
fn put_cells(
    standings: &mut Vec<Standing>,
    input: &TableInput,
    places: &TablePlaces,
) -> Result<(), NoMemory>
    requires fit { PlacesFit input.now places.now }
    requires count { length standings.old.items ≡ length input.now.boxes }
    requires near { AreNearStandings standings.old.items }
    ensures count { OnOk result (length standings.new.items ≡ length standings.old.items) }
    ensures each { OnOk result
        ((k : ℕ) → k < length standings.old.items
        → standing_at standings.new.items k
        ≡ standing_by (cell_standing input.now places.now) (standing_at standings.old.items k) (number_of (cell_places input.now) k)) }
    ensures near { OnOk result (AreNearStandings standings.new.items) }
{
    for c in 0..input.grid().cells().len() {
        let standing = cell_standing(input, places, c)?;
        put(standings, cell_place(input, c), standing);
    }
    Ok(())
}

fn cell_place(input: &TableInput, c: usize) -> usize
    requires { c < length input.now.table.grid.cells }
    ensures place { result ≡ slice_index (cell_places input.now) c }
    ensures within { result < length input.now.boxes }
{
    let _ = input.boxes();
    input.grid().cells()[c].place
}

/// The cell c.
fn cell_standing(input: &TableInput, places: &TablePlaces, c: usize) -> Result<Standing, NoMemory>
    requires fit { PlacesFit input.now places.now }
    requires cell { c < length input.now.table.grid.cells }
    ensures standing { IfOk result (λ s. s ≡ cell_standing input.now places.now c) }
    ensures near { IfOk result IsStandingNear }
{
    let cell = cell_of(input, c);
    let across = places.columns.start(cell.column as usize);
    let down = places.rows.tracks().start(cell.row as usize);
    Ok(Standing {
        corner: corner_inside(places.content, across, down)?,
        height: cell_height(input, places.rows.tracks(), c)?,
        shift: shift_of(input, &places.rows, c)?,
    })
}

/// Puts each row where it stands.
fn put_rows(
    standings: &mut Vec<Standing>,
    input: &TableInput,
    places: &TablePlaces,
) -> Result<(), NoMemory>
    requires fit { PlacesFit input.now places.now }
    requires count { length standings.old.items ≡ length input.now.boxes }
    requires near { AreNearStandings standings.old.items }
    ensures count { OnOk result (length standings.new.items ≡ length standings.old.items) }
    ensures each { OnOk result
        ((k : ℕ) → k < length standings.old.items
        → standing_at standings.new.items k
        ≡ standing_by (row_standing places.now) (standing_at standings.old.items k) (number_of (row_places input.now) k)) }
    ensures near { OnOk result (AreNearStandings standings.new.items) }
{
    for r in 0..input.grid().rows().len() {
        let standing = row_standing(places, r)?;
        put(standings, row_place(input, r), standing);
    }
    Ok(())
}

fn row_place(input: &TableInput, r: usize) -> usize
    requires { r < length input.now.table.grid.rows }
    ensures place { result ≡ slice_index (row_places input.now) r }
    ensures within { result < length input.now.boxes }
{
    let _ = input.boxes();
    input.grid().rows()[r].place
}

/// The row r.
fn row_standing(places: &TablePlaces, r: usize) -> Result<Standing, NoMemory>
    requires { r < length places.now.rows.tracks.lengths }
    ensures standing { IfOk result (λ s. s ≡ row_standing places.now r) }
    ensures near { IfOk result IsStandingNear }
{
    let rows = places.rows.tracks();
    Ok(Standing {
        corner: corner_inside(places.content, places.columns.start(0), rows.start(r))?,
        height: near_position(rows.length(r))?,
        shift: Unit(0),
    })
}

/// The boxes of the wrapper's context, in the order in which they stand.
fn places_in_wrapper(
    alloc: Global,
    input: &TableInput,
    captions: &Captions,
) -> Result<Vec<usize>, NoMemory>
    requires captions { captions.now ≡ captions_of input.now.boxes }
    requires above { ArePlaces (length input.now.boxes) captions.now.above }
    requires below { ArePlaces (length input.now.boxes) captions.now.below }
    ensures places { IfOk result (λ v. v.items ≡ places_in_wrapper input.now) }
    ensures within { IfOk result (λ v. ArePlaces (length input.now.boxes) v.items) }
{
    let _ = input.boxes();
    let mut places = Vec::new(alloc);
    places.push(0)?;
    places.extend_from_slice(&captions.above)?;
    places.push(input.grid().table())?;
    places.extend_from_slice(&captions.below)?;
    Ok(places)
}

/// Puts each of the boxes at these places where the flow puts it.
fn put_in_flow(standings: &mut Vec<Standing>, places: &TablePlaces, in_flow: &[usize])
    requires count { length places.now.flow.boxes ≡ length in_flow.now }
    requires within { ArePlaces (length standings.old.items) in_flow.now }
    requires near { AreNearStandings standings.old.items }
    ensures count { length standings.new.items ≡ length standings.old.items }
    ensures each { (k : ℕ) → k < length standings.old.items
        → standing_at standings.new.items k
        ≡ standing_by (λ n. table_flow_standing (box_place_at places.now.flow.boxes n)) (standing_at standings.old.items k)
        (number_of in_flow.now k) }
    ensures near { AreNearStandings standings.new.items }
{
    for n in 0..in_flow.len() {
        let standing = flow_standing(place_at(&places.flow, n));
        put(standings, in_flow[n], standing);
    }
}

fn flow_standing(place: BoxPlace) -> Standing
    requires { IsNearPlace place }
    ensures value { result ≡ table_flow_standing place }
    ensures near { IsStandingNear result }
{
    Standing {
        corner: Corner {
            x: place.corner.x,
            y: place.corner.y,
        },
        height: place.height,
        shift: Unit(0),
    }
}

/// The box at k stands so.
fn put(standings: &mut Vec<Standing>, k: usize, standing: Standing)
    requires within { k < length standings.old.items }
    requires all_near { AreNearStandings standings.old.items }
    requires near { IsStandingNear standing }
    ensures count { length standings.new.items ≡ length standings.old.items }
    ensures each { (j : ℕ) → j < length standings.old.items
        → standing_at standings.new.items j ≡ (if k == j then standing else standing_at standings.old.items j) }
    ensures near { AreNearStandings standings.new.items }
{
    standings[k] = standing;
}
