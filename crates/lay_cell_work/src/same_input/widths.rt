//! Whether two preferred widths are the same.

ghost use Rattle.std.specs.Prelude.{◌≡◌, ◌↔◌, IsTrue};

use lay_measure::PreferredWidths;

/// Whether two boxes have the same preferred widths.
pub fn same_widths(a: &PreferredWidths, b: &PreferredWidths) -> bool
    ensures { IsTrue result ↔ (a.now ≡ b.now) }
{
    a.minimum.0 == b.minimum.0 && a.preferred.0 == b.preferred.0
}

/// Whether two lists of preferred widths are the same.
pub(crate) fn same_widths_list(a: &[PreferredWidths], b: &[PreferredWidths]) -> bool
    ensures { IsTrue result ↔ (a.now ≡ b.now) }
{
    if a.len() != b.len() {
        return false;
    }
    for k in 0..a.len() {
        if !same_widths(&a[k], &b[k]) {
            return false;
        }
    }
    true
}
