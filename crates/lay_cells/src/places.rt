//! What is read of the cell at a place.

ghost use Rattle.std.specs.Prelude.{◌≡◌, ◌<◌, None, Some, false, IfNone, IfSome, length, map, option_map, slice_get};
ghost use Rattle.lay_cells.specs.Kept.{HasIndex, IsLowest, wire_of};
ghost use Rattle.lay_cells.specs.Places.{AreCleanFrom, AtPlace, HasNoNeedAt, IsClaimed, IsFirstDirtyFrom, IsNeedAt};
ghost use Rattle.lay_cells.specs.Reuses.{AreNeedsAt};
ghost use Rattle.lay_cells.specs.Rows.{row_of};
ghost use Rattle.lay_cells.specs.Steps.{IsStale};

use crate::cell::CellOf;
use crate::done::Done;
use crate::index::cell_at;
use crate::needs::is_dirty;
use crate::work::Work;

/// The key of the cell at a place.
pub fn key_in<W: Work>(cells: &[CellOf<W>], place: usize) -> W::Key
    requires { place < length cells.now }
    ensures { AtPlace (map row_of cells.now) place (λ r. result ≡ r.key) }
{
    cell_at::<W>(cells, place).key
}

/// The place of the cell's dependency of this number.
fn need_of<W: Work>(cell: &CellOf<W>, number: usize) -> Option<usize>
    ensures { result ≡ slice_get cell.now.places.items number }
{
    let places = cell.places.as_slice();
    if number < places.len() {
        Some(places[number])
    } else {
        None
    }
}

/// The place of a dependency of the cell at a place.
pub fn need_in<W: Work>(cells: &[CellOf<W>], place: usize, number: usize) -> Option<usize>
    requires wired { HasIndex W.Key.cmp (map wire_of cells.now) }
    requires within { place < length cells.now }
    ensures some { IfSome result (IsNeedAt (map row_of cells.now) place number) }
    ensures none { IfNone result (HasNoNeedAt (map row_of cells.now) place number) }
{
    need_of::<W>(cell_at::<W>(cells, place), number)
}

/// The places of the dependencies of the cell at a place.
pub fn needs_in<W: Work>(cells: &[CellOf<W>], place: usize) -> &[usize]
    requires wired { HasIndex W.Key.cmp (map wire_of cells.now) }
    requires within { place < length cells.now }
    ensures { AreNeedsAt (map row_of cells.now) place result.now }
{
    cell_at::<W>(cells, place).places.as_slice()
}

/// The pair that is kept of the cell at a place.
pub fn kept_in<W: Work>(cells: &[CellOf<W>], place: usize) -> Option<&Done<W>>
    requires { place < length cells.now }
    ensures { AtPlace (map row_of cells.now) place (λ r. option_map (λ d. d.now) result ≡ r.kept) }
{
    cell_at::<W>(cells, place).held.kept()
}

/// The number of the cell's open claim, if it isn't stale.
fn claimed<W: Work>(cell: &CellOf<W>) -> Option<u64>
    ensures some { IfSome result (IsClaimed (row_of cell.now)) }
    ensures none { IfNone result (IsStale (row_of cell.now) false → ⊥) }
{
    let Some(claim) = cell.claim else {
        return None;
    };
    if claim.stale {
        None
    } else {
        Some(claim.number)
    }
}

/// The number of the open claim of the cell at a place, if it isn't stale.
pub fn claimed_in<W: Work>(cells: &[CellOf<W>], place: usize) -> Option<u64>
    requires { place < length cells.now }
    ensures some { IfSome result (λ n. AtPlace (map row_of cells.now) place (λ r. IsClaimed r n)) }
    ensures none { IfNone result (AtPlace (map row_of cells.now) place (λ r. IsStale r false → ⊥)) }
{
    claimed::<W>(cell_at::<W>(cells, place))
}

/// The place of the first dirty cell at or behind a place, cell by cell.
fn next_dirty_from<W: Work>(cells: &[CellOf<W>], place: usize) -> Option<usize>
    ensures some { IfSome result (IsFirstDirtyFrom (map row_of cells.now) place) }
    ensures none { IfNone result (AreCleanFrom (map row_of cells.now) place) }
{
    for at in place..cells.len() {
        if is_dirty::<W>(cells, at) {
            return Some(at);
        }
    }
    None
}

/// The place of the first dirty cell at or behind a place. What is known to be clean isn't passed again.
pub fn dirty_from<W: Work>(cells: &[CellOf<W>], lowest: usize, place: usize) -> Option<usize>
    requires { IsLowest (map row_of cells.now) lowest }
    ensures some { IfSome result (IsFirstDirtyFrom (map row_of cells.now) place) }
    ensures none { IfNone result (AreCleanFrom (map row_of cells.now) place) }
{
    if lowest <= place {
        return next_dirty_from::<W>(cells, place);
    }
    if lowest < cells.len() {
        return Some(lowest);
    }
    None
}
