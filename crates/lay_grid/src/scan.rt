//! Which columns are free, and from which row on.

ghost use Rattle.std.specs.Prelude.{◌≤◌, ℕ, length, OnOk};
ghost use Rattle.lay_grid.specs.Pass.Known.{AreFree, BusyAt, Occupied};

use crate::cells::Area;
use lay_units::NoMemory;

/// The least column from `from` on at which so many columns are free in the row.
//
// The columns from `left` to before `c` are free. Where `c` isn't, no place up to it will do.
pub fn free_left(busy: &[usize], row: usize, columns: u32, from: usize) -> usize
    requires { from ≤ length busy.now }
    ensures from { from ≤ result }
    ensures free { AreFree busy.now row columns result }
    ensures least { (left : ℕ) → from ≤ left → AreFree busy.now row columns left → result ≤ left }
    ensures within { result ≤ length busy.now }
{
    let mut left = from;
    for c in from..busy.len() {
        if c - left == columns as usize {
            return left;
        }
        if busy[c] > row {
            left = c + 1;
        }
    }
    left
}

/// The columns of a cell at `left` are busy up to its end.
pub fn occupy(busy: &mut Vec<usize>, area: Area, left: usize) -> Result<(), NoMemory>
    requires { left ≤ length busy.old.items }
    ensures { OnOk result (Occupied busy.old.items busy.new.items area left) }
{
    for c in left..left + area.columns as usize {
        occupy_column(busy, c, area.end)?;
    }
    Ok(())
}

fn occupy_column(busy: &mut Vec<usize>, c: usize, end: usize) -> Result<(), NoMemory>
    requires { c ≤ length busy.old.items }
    ensures { OnOk result (BusyAt c end busy.old.items busy.new.items) }
{
    if c < busy.len() {
        busy[c] = end;
    } else {
        busy.push(end)?;
    }
    Ok(())
}
