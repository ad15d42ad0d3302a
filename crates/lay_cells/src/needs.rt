//! Which cells are dirty, among the dependencies of a cell and among all.

ghost use Rattle.std.specs.Prelude.{◌≡◌, ◌<◌, ℕ, true, false, length, map, slice_get, Some, IfSome, IfNone};
ghost use Rattle.lay_cells.specs.Kept.{HasBit, HasIndex, IsLowest, wire_of};
ghost use Rattle.lay_cells.specs.Looks.{AreClean, IsFirstDirty};
ghost use Rattle.lay_cells.specs.Reads.{AllClean, IsFirstDirtyKey};
ghost use Rattle.lay_cells.specs.Rows.{Row, row_of};

use crate::cell::CellOf;
use crate::index::cell_at;
use crate::work::Work;

pub fn is_dirty<W: Work>(cells: &[CellOf<W>], place: usize) -> bool
    requires { place < length cells.now }
    ensures { HasBit (map row_of cells.now) place result }
{
    cell_at::<W>(cells, place).dirty
}

/// Which of these places is the first whose cell is dirty.
fn first_dirty_place<W: Work>(cells: &[CellOf<W>], places: &[usize]) -> Option<usize>
    requires { (n p : ℕ) → slice_get places.now n ≡ Some p → p < length cells.now }
    ensures some { IfSome result (λ n. (p : ℕ) × (slice_get places.now n ≡ Some p) × HasBit (map row_of cells.now) p true
        × ((m : ℕ) → m < n → (q : ℕ) → slice_get places.now m ≡ Some q → HasBit (map row_of cells.now) q false)) }
    ensures none { IfNone result ((m q : ℕ) → slice_get places.now m ≡ Some q → HasBit (map row_of cells.now) q false) }
{
    for n in 0..places.len() {
        if is_dirty::<W>(cells, places[n]) {
            return Some(n);
        }
    }
    None
}

/// The first dependency of the cell at a place that is dirty.
pub fn first_dirty_need<W: Work>(cells: &[CellOf<W>], place: usize) -> Option<W::Key>
    requires wired { HasIndex W.Key.cmp (map wire_of cells.now) }
    requires within { place < length cells.now }
    ensures some { IfSome result
        (λ k. (r : Row W.Key W.Input W.Value) × (slice_get (map row_of cells.now) place ≡ Some r)
        × IsFirstDirty (map row_of cells.now) r.needs k) }
    ensures none { IfNone result
        ((r : Row W.Key W.Input W.Value) × (slice_get (map row_of cells.now) place ≡ Some r) × AreClean (map row_of cells.now) r.needs) }
{
    let cell = cell_at::<W>(cells, place);
    match first_dirty_place::<W>(cells, cell.places.as_slice()) {
        Some(n) => Some(cell.needs[n]),
        None => None,
    }
}

/// The place of the first dirty cell, or the number of cells. The cells before `from` are clean.
pub fn next_dirty<W: Work>(cells: &[CellOf<W>], from: usize) -> usize
    requires { (j : ℕ) → j < from → (r : Row W.Key W.Input W.Value) → slice_get (map row_of cells.now) j ≡ Some r → r.dirty ≡ false }
    ensures { IsLowest (map row_of cells.now) result }
{
    for place in from..cells.len() {
        if is_dirty::<W>(cells, place) {
            return place;
        }
    }
    cells.len()
}

/// The key of the first dirty cell.
pub fn first_dirty_key<W: Work>(cells: &[CellOf<W>], lowest: usize) -> Option<W::Key>
    requires { IsLowest (map row_of cells.now) lowest }
    ensures some { IfSome result (IsFirstDirtyKey (map row_of cells.now)) }
    ensures none { IfNone result (AllClean (map row_of cells.now)) }
{
    if lowest >= cells.len() {
        return None;
    }
    Some(cell_at::<W>(cells, lowest).key)
}
