//! Whether two formatting contexts are sized of the same, or have the same sizes.

ghost use Rattle.std.specs.Prelude.{◌≡◌, ◌↔◌, IsTrue};

use crate::same_input::measured::same_measured_context;
use crate::same_input::settings::{same_own_place, same_setting};
use crate::same_input::table_sizes::same_table_or_none;
use lay_abspos::StandInput;
use lay_context_sizes::{SizeInput, SizedContext};
use lay_same::{same_boxes, same_length_or_none, same_sizes};

/// Whether the used sizes of two formatting contexts are worked out of the same.
pub fn same_size_input(a: &SizeInput, b: &SizeInput) -> bool
    ensures { IsTrue result ↔ (a.now ≡ b.now) }
{
    same_measured_context(a.measured(), b.measured())
        && same_setting(&a.setting(), &b.setting())
        && same_boxes(a.boxes(), b.boxes())
}

/// Whether two formatting contexts have the same sizes.
pub fn same_sized_context(a: &SizedContext, b: &SizedContext) -> bool
    ensures { IsTrue result ↔ (a.now ≡ b.now) }
{
    a.left().0 == b.left().0
        && same_length_or_none(a.stretched(), b.stretched())
        && same_sizes(a.boxes().as_slice(), b.boxes().as_slice())
        && same_table_or_none(a.table(), b.table())
}

/// Whether the same is given of where two formatting contexts stand themselves.
pub fn same_stand_input(a: &StandInput, b: &StandInput) -> bool
    ensures { IsTrue result ↔ (a.now ≡ b.now) }
{
    a.left().0 == b.left().0
        && same_own_place(&a.position(), &b.position())
        && same_sizes(a.sizes(), b.sizes())
        && same_boxes(a.boxes().as_slice(), b.boxes().as_slice())
}
