//! Whether two formatting contexts are given the same by where they stand.

ghost use Rattle.std.specs.Prelude.{◌≡◌, ◌↔◌, IsTrue};

use crate::same_input::table_sizes::same_cell_size;
use lay_abspos::{AbsoluteSetting, OwnPlace};
use lay_context_sizes::Setting;
use lay_same::{same_containing_block, same_rect};

/// Whether two absolutely positioned boxes are given the same from outside.
fn same_absolute_setting(a: &AbsoluteSetting, b: &AbsoluteSetting) -> bool
    ensures { IsTrue result ↔ (a.now ≡ b.now) }
{
    a.static_left.0 == b.static_left.0
        && a.static_top.0 == b.static_top.0
        && same_rect(&a.rect, &b.rect)
}

/// Whether two own boxes are given the same by where they stand.
pub fn same_setting(a: &Setting, b: &Setting) -> bool
    ensures { IsTrue result ↔ (a.now ≡ b.now) }
{
    match (a, b) {
        (Setting::Block(x), Setting::Block(y)) => same_containing_block(x, y),
        (
            Setting::Cell { containing, cell },
            Setting::Cell {
                containing: other_containing,
                cell: other_cell,
            },
        ) => {
            same_cell_size(cell, other_cell) && same_containing_block(containing, other_containing)
        }
        (Setting::Absolute(x), Setting::Absolute(y)) => same_absolute_setting(x, y),
        _ => false,
    }
}

/// Whether the same says where two formatting contexts stand.
pub fn same_own_place(a: &OwnPlace, b: &OwnPlace) -> bool
    ensures { IsTrue result ↔ (a.now ≡ b.now) }
{
    match (a, b) {
        (OwnPlace::Inner, OwnPlace::Inner) => true,
        (OwnPlace::Root(x), OwnPlace::Root(y)) => same_containing_block(x, y),
        (OwnPlace::Absolute(x), OwnPlace::Absolute(y)) => same_absolute_setting(x, y),
        _ => false,
    }
}
