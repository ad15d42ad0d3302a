//! Whether two formatting contexts have the same preferred widths.

ghost use Rattle.std.specs.Prelude.{◌≡◌, ◌↔◌, IsTrue};

use crate::same_input::widths::same_widths;
use lay_context_sizes::MeasuredContext;
use lay_grid::automatic::Bound;
use lay_table_sizes::TableBounds;

/// Whether two formatting contexts have the same preferred widths and bounds.
pub fn same_measured_context(a: &MeasuredContext, b: &MeasuredContext) -> bool
    ensures { IsTrue result ↔ (a.now ≡ b.now) }
{
    same_widths(&a.widths(), &b.widths()) && same_table_bounds(a.table(), b.table())
}

fn same_table_bounds(a: &TableBounds, b: &TableBounds) -> bool
    ensures { IsTrue result ↔ (a.now ≡ b.now) }
{
    a.captions().0 == b.captions().0 && same_bounds(a.columns(), b.columns())
}

fn same_bounds(a: &[Bound], b: &[Bound]) -> bool
    ensures { IsTrue result ↔ (a.now ≡ b.now) }
{
    if a.len() != b.len() {
        return false;
    }
    for k in 0..a.len() {
        if !same_bound(&a[k], &b[k]) {
            return false;
        }
    }
    true
}

fn same_bound(a: &Bound, b: &Bound) -> bool
    ensures { IsTrue result ↔ (a.now ≡ b.now) }
{
    a.min.0 == b.min.0 && a.max.0 == b.max.0
}
