//! Whether two tables have the same sizes.

ghost use Rattle.std.specs.Prelude.{◌≡◌, ◌↔◌, IsTrue};

use lay_same::{same_grid, same_sides};
use lay_table_sizes::{CellSize, TableSizes};
use lay_units::Unit;

/// Whether two tables have the same grid, columns and cells.
pub fn same_table_sizes(a: &TableSizes, b: &TableSizes) -> bool
    ensures { IsTrue result ↔ (a.now ≡ b.now) }
{
    same_columns(a.columns(), b.columns())
        && same_cell_sizes(a.cells(), b.cells())
        && same_grid(a.grid(), b.grid())
}

/// Whether two tables are the same, or neither is there.
pub(crate) fn same_table_or_none(a: &Option<TableSizes>, b: &Option<TableSizes>) -> bool
    ensures { IsTrue result ↔ (a.now ≡ b.now) }
{
    match (a, b) {
        (Some(a), Some(b)) => same_table_sizes(a, b),
        (None, None) => true,
        _ => false,
    }
}

fn same_columns(a: &[Unit], b: &[Unit]) -> bool
    ensures { IsTrue result ↔ (a.now ≡ b.now) }
{
    if a.len() != b.len() {
        return false;
    }
    for k in 0..a.len() {
        if !same_width(&a[k], &b[k]) {
            return false;
        }
    }
    true
}

fn same_width(a: &Unit, b: &Unit) -> bool
    ensures { IsTrue result ↔ (a.now ≡ b.now) }
{
    a.0 == b.0
}

fn same_cell_sizes(a: &[Option<CellSize>], b: &[Option<CellSize>]) -> bool
    ensures { IsTrue result ↔ (a.now ≡ b.now) }
{
    if a.len() != b.len() {
        return false;
    }
    for k in 0..a.len() {
        if !same_cell_size_or_none(&a[k], &b[k]) {
            return false;
        }
    }
    true
}

fn same_cell_size_or_none(a: &Option<CellSize>, b: &Option<CellSize>) -> bool
    ensures { IsTrue result ↔ (a.now ≡ b.now) }
{
    match (a, b) {
        (Some(a), Some(b)) => same_cell_size(a, b),
        (None, None) => true,
        _ => false,
    }
}

pub(crate) fn same_cell_size(a: &CellSize, b: &CellSize) -> bool
    ensures { IsTrue result ↔ (a.now ≡ b.now) }
{
    a.width.0 == b.width.0 && same_sides(&a.borders, &b.borders)
}
