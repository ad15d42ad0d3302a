//! Whether two tables have the same structure.

ghost use Rattle.std.specs.Prelude.{◌≡◌, ◌↔◌, IsTrue};

use crate::lengths::same_sides;
use lay_table_grid::{Spacing, TableCell, TableGrid, TableRow};

/// Whether two tables have the same structure.
pub fn same_grid(a: &TableGrid, b: &TableGrid) -> bool
    ensures { IsTrue result ↔ (a.now ≡ b.now) }
{
    a.table() == b.table()
        && a.columns() == b.columns()
        && a.collapses() == b.collapses()
        && same_spacing(a.spacing(), b.spacing())
        && same_sides(&a.borders(), &b.borders())
        && a.column_boxes() == b.column_boxes()
        && same_rows(a.rows(), b.rows())
        && same_cells(a.cells(), b.cells())
}

fn same_spacing(a: Spacing, b: Spacing) -> bool
    ensures { IsTrue result ↔ (a ≡ b) }
{
    a.across.0 == b.across.0 && a.down.0 == b.down.0
}

fn same_rows(a: &[TableRow], b: &[TableRow]) -> bool
    ensures { IsTrue result ↔ (a.now ≡ b.now) }
{
    if a.len() != b.len() {
        return false;
    }
    for k in 0..a.len() {
        if !same_row(&a[k], &b[k]) {
            return false;
        }
    }
    true
}

fn same_row(a: &TableRow, b: &TableRow) -> bool
    ensures { IsTrue result ↔ (a.now ≡ b.now) }
{
    a.place == b.place && a.group == b.group
}

fn same_cells(a: &[TableCell], b: &[TableCell]) -> bool
    ensures { IsTrue result ↔ (a.now ≡ b.now) }
{
    if a.len() != b.len() {
        return false;
    }
    for k in 0..a.len() {
        if !same_cell(&a[k], &b[k]) {
            return false;
        }
    }
    true
}

fn same_cell(a: &TableCell, b: &TableCell) -> bool
    ensures { IsTrue result ↔ (a.now ≡ b.now) }
{
    a.place == b.place
        && a.row == b.row
        && a.column == b.column
        && a.rows == b.rows
        && a.columns == b.columns
        && same_sides(&a.borders, &b.borders)
}
