//! The baseline of a table cell (CSS 2.2, 17.5.3).

ghost use Rattle.std.specs.Prelude.{◌≡◌, ◌<◌, length, IfOk, IfSome};
ghost use Rattle.lay_sizes.specs.OwnBoxes.{IsBaseline};
ghost use Rattle.lay_placement.specs.Baselines.{baseline_in, first_baseline, first_baseline_to};
ghost use Rattle.lay_placement.specs.Baselines.{is_of_cell, is_solid_role, is_table_in_flow, table_baseline};
ghost use Rattle.lay_placement.specs.Counts.{HaveCounts};

use crate::baselines::{baseline_below, baseline_of};
use crate::columns::place_at;
use crate::context_places::{BoxPlaces, rows_at};
use lay_box_tree::{Role, is_cell, is_wrapper};
use lay_flow_boxes::{PlaceInput, own_box_at};
use lay_lines::Ended;
use lay_units::{NoMemory, Unit};

/// Whether the own box is a table cell.
pub(crate) fn is_of_cell(input: &PlaceInput) -> bool
    ensures { result ≡ is_of_cell input.now.boxes }
{
    is_cell(&input.boxes()[0].kind)
}

/// The baseline of the first line or the first row in flow, downward from the top of the own border box. NoMemory is also the
/// answer where it is more than 2^59 units away.
pub(crate) fn first_baseline_of(
    input: &PlaceInput,
    places: &BoxPlaces,
) -> Result<Option<Unit>, NoMemory>
    requires { HaveCounts input.now.boxes places.now }
    ensures value { IfOk result (λ b. b ≡ first_baseline_to input.now places.now.places (length input.now.boxes)) }
    ensures near { IfOk result (λ b. IfSome b (λ u. IsBaseline u.0)) }
{
    for k in 0..input.boxes().len() {
        let found = baseline_in(input, places, k)?;
        if found.is_some() {
            return Ok(found);
        }
    }
    Ok(None)
}

/// The baseline of the first line of the box at k that is seen, or of its first row where it is a table.
fn baseline_in(input: &PlaceInput, places: &BoxPlaces, k: usize) -> Result<Option<Unit>, NoMemory>
    requires counts { HaveCounts input.now.boxes places.now }
    requires place { k < length input.now.boxes }
    ensures value { IfOk result (λ b. b ≡ baseline_in input.now places.now.places k) }
    ensures near { IfOk result (λ b. IfSome b (λ u. IsBaseline u.0)) }
{
    if is_table_in_flow(input, k) {
        return table_baseline(input, places, k);
    }
    first_baseline(rows_at(&places.places, k))
}

/// Whether the box at k is the wrapper of a block-level table in flow.
fn is_table_in_flow(input: &PlaceInput, k: usize) -> bool
    requires { k < length input.now.boxes }
    ensures { result ≡ is_table_in_flow input.now.boxes k }
{
    is_solid(input.role(k)) && is_wrapper(&input.boxes()[k].kind)
}

fn is_solid(role: Role) -> bool
    ensures { result ≡ is_solid_role role }
{
    matches!(role, Role::Solid)
}

/// The baseline of the first row of the table whose wrapper is the box at k.
fn table_baseline(
    input: &PlaceInput,
    places: &BoxPlaces,
    k: usize,
) -> Result<Option<Unit>, NoMemory>
    requires counts { HaveCounts input.now.boxes places.now }
    requires place { k < length input.now.boxes }
    ensures value { IfOk result (λ b. b ≡ table_baseline input.now places.now.places k) }
    ensures near { IfOk result (λ b. IfSome b (λ u. IsBaseline u.0)) }
{
    let _ = input.boxes();
    match own_box_at(input.inner(), k).baseline {
        Some(baseline) => {
            let top = place_at(places.places.boxes(), k).corner.y;
            Ok(Some(baseline_below(top, baseline)?))
        }
        None => Ok(None),
    }
}

/// The baseline of the first of these lines that is seen.
fn first_baseline(rows: &[Ended]) -> Result<Option<Unit>, NoMemory>
    ensures value { IfOk result (λ b. b ≡ first_baseline rows.now) }
    ensures near { IfOk result (λ b. IfSome b (λ u. IsBaseline u.0)) }
{
    match rows.iter().find(|row| row.seen) {
        Some(row) => Ok(Some(baseline_of(row)?)),
        None => Ok(None),
    }
}
