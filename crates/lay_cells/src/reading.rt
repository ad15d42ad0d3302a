//! What is read of the cell of a key.

ghost use Rattle.std.specs.Prelude.{◌≡◌, ◌<◌, None, Some, IfSome, IfNone, length, map, slice_get};
ghost use Rattle.std.specs.Arc.{arc_value};
ghost use Rattle.lay_cells.specs.Kept.{HasIndex, IsWired, wire_of};
ghost use Rattle.lay_cells.specs.Looks.{IsGone, Looks};
ghost use Rattle.lay_cells.specs.Reads.{IsLaid, KeepsNone, KeepsValue};
ghost use Rattle.lay_cells.specs.Rows.{Row, Solved, row_of};

use crate::answers::Look;
use crate::cell::CellOf;
use crate::index::{cell_at, find, find_cell};
use crate::needs::first_dirty_need;
use crate::work::Work;
use std::collections::BTreeMap;
use std::sync::Arc;

/// What a look at the cell at a place shows.
pub fn look_at<W: Work>(cells: &[CellOf<W>], place: usize) -> Look<W::Key>
    requires wired { HasIndex W.Key.cmp (map wire_of cells.now) }
    requires within { place < length cells.now }
    ensures { (r : Row W.Key W.Input W.Value) → slice_get (map row_of cells.now) place ≡ Some r
        → Looks (map row_of cells.now) r.key result }
{
    if !cell_at::<W>(cells, place).dirty {
        return Look::Clean;
    }
    match first_dirty_need::<W>(cells, place) {
        Some(need) => Look::Waiting(need),
        None => Look::Ready,
    }
}

/// What a look at the key shows.
pub fn look_in<W: Work>(
    cells: &[CellOf<W>],
    index: &BTreeMap<W::Key, usize>,
    key: W::Key,
) -> Look<W::Key>
    requires wired { IsWired W.Key.cmp index.now (map wire_of cells.now) }
    ensures { Looks (map row_of cells.now) key result }
{
    match find::<W>(cells, index, key) {
        Some(place) => look_at::<W>(cells, place),
        None => Look::Gone,
    }
}

/// The value that is kept of the cell.
fn value_of<W: Work>(cell: &CellOf<W>) -> Option<&Arc<W::Value>>
    ensures some { IfSome result
        (λ v. (d : Solved W.Key W.Input W.Value) × ((row_of cell.now).kept ≡ Some d) × (arc_value v.now ≡ d.value)
        × W.relates d.input d.value) }
    ensures none { IfNone result ((row_of cell.now).kept ≡ None) }
{
    match cell.held.kept() {
        Some(done) => Some(done.value()),
        None => None,
    }
}

/// The value that is kept under the key.
pub fn value_in<'a, W: Work>(
    cells: &'a [CellOf<W>],
    index: &BTreeMap<W::Key, usize>,
    key: W::Key,
) -> Option<&'a Arc<W::Value>>
    requires wired { IsWired W.Key.cmp index.now (map wire_of cells.now) }
    ensures some { IfSome result (λ v. KeepsValue W.relates (map row_of cells.now) key (arc_value v.now)) }
    ensures none { IfNone result (KeepsNone (map row_of cells.now) key) }
{
    match find_cell::<W>(cells, index, key) {
        Some(cell) => value_of::<W>(cell),
        None => None,
    }
}

/// How many claims of the cell of the key were granted.
pub fn laid_in<W: Work>(
    cells: &[CellOf<W>],
    index: &BTreeMap<W::Key, usize>,
    key: W::Key,
) -> Option<u64>
    requires wired { IsWired W.Key.cmp index.now (map wire_of cells.now) }
    ensures some { IfSome result (IsLaid (map row_of cells.now) key) }
    ensures none { IfNone result (IsGone (map row_of cells.now) key) }
{
    match find_cell::<W>(cells, index, key) {
        Some(cell) => Some(cell.laid),
        None => None,
    }
}
