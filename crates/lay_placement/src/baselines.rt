//! The baseline of the own box of a formatting context (CSS 2.2, 10.8.1 and 17.5.3).

ghost use Rattle.std.specs.Prelude.{◌≡◌, ◌+ℤ◌, Some, IfOk, IfSome, if◌then◌else◌};
ghost use Rattle.std.specs.List.{flat_map};
ghost use Rattle.std.specs.Option.{option_or};
ghost use Rattle.lay_inlines.specs.LinePieces.{baseline_of};
ghost use Rattle.lay_sizes.specs.OwnBoxes.{IsBaseline};
ghost use Rattle.lay_placement.specs.Baselines.{is_visible, last_baseline, own_baseline};
ghost use Rattle.lay_placement.specs.Counts.{HaveCounts};

use crate::context_places::BoxPlaces;
use crate::first_baselines::{first_baseline_of, is_of_cell};
use lay_flow_boxes::PlaceInput;
use lay_lines::{Ended, RowList};
use lay_style::Overflow;
use lay_units::{NoMemory, Unit};

/// The greatest distance of a baseline from the top of its box: 2^59.
const FARTHEST: i64 = 576460752303423488;

/// The baseline of the own box, downward from the top of its border box, in 1/64 px: of a table cell that of its first line or
/// row in flow, and otherwise that of its last line in flow, as an inline-block has it. None where there is none, or where
/// the `overflow` of what isn't a cell isn't `visible`. NoMemory is also the answer where it is more than 2^59 units away,
/// which it is in no document within the limits.
pub(crate) fn own_baseline(input: &PlaceInput, places: &BoxPlaces) -> Result<Option<Unit>, NoMemory>
    requires { HaveCounts input.now.boxes places.now }
    ensures value { IfOk result (λ b. b ≡ own_baseline input.now places.now.places) }
    ensures near { IfOk result (λ b. IfSome b (λ u. IsBaseline u.0)) }
{
    let _ = input.boxes();
    if is_of_cell(input) {
        return first_baseline_of(input, places);
    }
    if is_visible(input.context_boxes().style(0).overflow) {
        last_baseline(places.places.lines())
    } else {
        Ok(None)
    }
}

fn is_visible(overflow: Overflow) -> bool
    ensures { result ≡ is_visible overflow }
{
    matches!(overflow, Overflow::Visible)
}

/// The baseline of the last of these lines, box after box, that is seen.
fn last_baseline(lines: &[RowList]) -> Result<Option<Unit>, NoMemory>
    ensures value { IfOk result (λ b. b ≡ last_baseline (flat_map (λ rows. rows) lines.now)) }
    ensures near { IfOk result (λ b. IfSome b (λ u. IsBaseline u.0)) }
{
    let mut last = None;
    for k in 0..lines.len() {
        last = last_baseline_or(lines[k].as_slice(), last)?;
    }
    Ok(last)
}

/// The baseline of the last of these lines that is seen, or else this.
fn last_baseline_or(rows: &[Ended], before: Option<Unit>) -> Result<Option<Unit>, NoMemory>
    requires near { IfSome before (λ u. IsBaseline u.0) }
    ensures value { IfOk result (λ b. b ≡ option_or (last_baseline rows.now) before) }
    ensures near { IfOk result (λ b. IfSome b (λ u. IsBaseline u.0)) }
{
    let mut last = before;
    for k in 0..rows.len() {
        last = baseline_or(&rows[k], last)?;
    }
    Ok(last)
}

/// The baseline of this line, where it is seen, or else this.
fn baseline_or(row: &Ended, before: Option<Unit>) -> Result<Option<Unit>, NoMemory>
    requires near { IfSome before (λ u. IsBaseline u.0) }
    ensures value { IfOk result (λ b. b ≡ (if row.now.seen then Some (record { 0 = baseline_of row.now }) else before)) }
    ensures near { IfOk result (λ b. IfSome b (λ u. IsBaseline u.0)) }
{
    if row.seen {
        return Ok(Some(baseline_of(row)?));
    }
    Ok(before)
}

/// The baseline of this line. NoMemory is the answer where it is more than 2^59 units away.
pub(crate) fn baseline_of(row: &Ended) -> Result<Unit, NoMemory>
    ensures value { IfOk result (λ u. u ≡ record { 0 = baseline_of row.now }) }
    ensures near { IfOk result (λ u. IsBaseline u.0) }
{
    baseline_below(row.top, row.extent.above)
}

/// What is so far below this. NoMemory is the answer where it is more than 2^59 units away.
pub(crate) fn baseline_below(top: Unit, above: Unit) -> Result<Unit, NoMemory>
    ensures value { IfOk result (λ u. u ≡ record { 0 = top.0 +ℤ above.0 }) }
    ensures near { IfOk result (λ u. IsBaseline u.0) }
{
    match top.0.checked_add(above.0) {
        Some(y) if -FARTHEST <= y && y <= FARTHEST => Ok(Unit(y)),
        Some(_) | None => Err(NoMemory),
    }
}
