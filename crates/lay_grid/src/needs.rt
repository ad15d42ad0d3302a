//! What cells need of the rows that they span (CSS 2.2, 17.5.3), by their last rows.

ghost use Rattle.std.specs.Prelude.{◌≡◌, ◌+◌, ◌≤◌, ◌++◌, ◌∷◌, [], length, slice_index_or};
ghost use Rattle.std.specs.Prelude.{None, IfOk, OnOk, All, replicate};
ghost use Rattle.lay_units.specs.Units.{IsPosition, IsWithinPower};
ghost use Rattle.lay_grid.specs.Lengths.{MayBePosition};
ghost use Rattle.lay_grid.specs.RowsFit.{RowCellFits};
ghost use Rattle.lay_grid.specs.Pass.Needs.{Adds, AllNeedsTo, room_of};

use crate::baselines::row_baselines;
use crate::heights::RowCell;
use lay_units::{NoMemory, Unit};
use std::alloc::Global;
use std::marker::Model;

/// What a cell needs of the rows that it spans, from the row `row` on: so much room.
#[derive(Clone, Copy)]
pub struct Need {
    pub row: u32,
    pub span: u32,
    pub room: i128,
}

/// The needs of the cells that end in a row.
#[derive(Drop)]
pub struct NeedList {
    items: Vec<Need>,
}

impl Model for NeedList {
    ghost use Rattle.std.specs.Prelude.{List};
    ghost use Rattle.lay_grid.specs.declared.needs.Need.{Need};

    ghost Value = { List Need };

    ghost view = { λ l. l.items.items };
}

impl NeedList {
    pub fn new(alloc: Global) -> NeedList
        ensures { result ≡ [] }
    {
        NeedList {
            items: Vec::new(alloc),
        }
    }

    pub fn push(&mut self, need: Need) -> Result<(), NoMemory>
        ensures { OnOk result (self.new ≡ self.old ++ need ∷ []) }
    {
        Ok(self.items.push(need)?)
    }

    pub fn as_slice(&self) -> &[Need]
        ensures { result.now ≡ self.now }
    {
        self.items.as_slice()
    }
}

/// The needs of the cells, by the rows that they end in.
pub fn needs_by_last_row(
    alloc: Global,
    cells: &[RowCell],
    rows: usize,
) -> Result<Vec<NeedList>, NoMemory>
    requires { All (RowCellFits rows) cells.now }
    ensures { IfOk result (λ needs. AllNeedsTo cells.now (length cells.now) rows needs.items) }
{
    let baselines = row_baselines(alloc, cells, rows)?;
    let mut needs = empty_lists(alloc, rows)?;
    for cell in cells {
        add_need(&mut needs, need_of(cell, baselines.as_slice()))?;
    }
    Ok(needs)
}

fn empty_lists(alloc: Global, count: usize) -> Result<Vec<NeedList>, NoMemory>
    ensures { IfOk result (λ lists. lists.items ≡ replicate count []) }
{
    let mut lists = Vec::new(alloc);
    for _ in 0..count {
        lists.push(NeedList::new(alloc))?;
    }
    Ok(lists)
}

fn add_need(needs: &mut Vec<NeedList>, need: Need) -> Result<(), NoMemory>
    requires some { 1 ≤ need.span }
    requires inside { need.row + need.span ≤ length needs.old.items }
    ensures { OnOk result (Adds need needs.old.items needs.new.items) }
{
    let last_row = need.row as usize + need.span as usize - 1;
    needs[last_row].push(need)
}

/// What a cell needs where the rows have these baselines.
fn need_of(cell: &RowCell, baselines: &[Option<Unit>]) -> Need
    requires cell { RowCellFits (length baselines.now) cell.now }
    requires baselines { All MayBePosition baselines.now }
    ensures row { result.row ≡ cell.now.row }
    ensures span { result.span ≡ cell.now.span }
    ensures room { result.room ≡ room_of cell.now (slice_index_or baselines.now cell.now.row None) }
    ensures within { IsWithinPower 64 result.room }
{
    Need {
        row: cell.row,
        span: cell.span,
        room: room_needed(cell, baselines[cell.row as usize]),
    }
}

fn room_needed(cell: &RowCell, row_baseline: Option<Unit>) -> i128
    requires height { IsPosition cell.now.height.0 }
    requires baseline { MayBePosition cell.now.baseline }
    requires row_baseline { MayBePosition row_baseline }
    ensures value { result ≡ room_of cell.now row_baseline }
    ensures within { IsWithinPower 64 result }
{
    let height = i128::from(cell.height.0);
    match (cell.baseline, row_baseline) {
        (Some(own), Some(lowest)) => height + (i128::from(lowest.0) - i128::from(own.0)),
        _ => height,
    }
}
