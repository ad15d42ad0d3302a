//! The baselines of rows (CSS 2.2, 17.5.3).

ghost use Rattle.std.specs.Prelude.{◌≡◌, ◌<◌, length, IfOk, All};
ghost use Rattle.lay_grid.specs.Lengths.{MayBePosition};
ghost use Rattle.lay_grid.specs.RowBaselines.{AreRowBaselines};
ghost use Rattle.lay_grid.specs.RowsFit.{RowCellFits};
ghost use Rattle.lay_grid.specs.Pass.Baselines.{BaselinesTo, Lowers, lower_baseline};

use crate::heights::RowCell;
use lay_units::{NoMemory, Unit};
use std::alloc::Global;

/// The baseline of each of so many rows, in 1/64 px (CSS 2.2, 17.5.3): the lowest of those of the cells that begin there.
/// NoMemory is the answer for want of memory alone.
pub fn row_baselines(
    alloc: Global,
    cells: &[RowCell],
    rows: usize,
) -> Result<Vec<Option<Unit>>, NoMemory>
    requires { All (RowCellFits rows) cells.now }
    ensures baselines { IfOk result (λ found. AreRowBaselines cells.now rows found.items) }
    ensures found { IfOk result (λ found. BaselinesTo cells.now (length cells.now) rows found.items) }
{
    let mut baselines = vec![in alloc; None; rows]?;
    for cell in cells {
        lower_baseline(&mut baselines, cell.row as usize, cell.baseline);
    }
    Ok(baselines)
}

fn lower_baseline(baselines: &mut Vec<Option<Unit>>, row: usize, baseline: Option<Unit>)
    requires row { row < length baselines.old.items }
    requires baselines { All MayBePosition baselines.old.items }
    requires baseline { MayBePosition baseline }
    ensures lowers { Lowers row baseline baselines.old.items baselines.new.items }
    ensures fits { All MayBePosition baselines.new.items }
{
    baselines[row] = lower(baselines[row], baseline);
}

fn lower(a: Option<Unit>, b: Option<Unit>) -> Option<Unit>
    ensures { result ≡ lower_baseline a b }
{
    match (a, b) {
        (Some(a), Some(b)) => Some(Unit(a.0.max(b.0))),
        (Some(a), None) => Some(a),
        (None, b) => b,
    }
}
