//! Whether two tasks are given the same.

ghost use Rattle.std.specs.Prelude.{◌≡◌, ◌↔◌, IsTrue};

use crate::same_input::parts::{same_flow_parts, same_measure_parts, same_table_parts};
use crate::same_input::sized::{same_size_input, same_stand_input};
use lay_context::Input;

/// Whether two tasks are given the same.
pub fn same_input(a: &Input, b: &Input) -> bool
    ensures { IsTrue result ↔ (a.now ≡ b.now) }
{
    match (a, b) {
        (Input::Measure(x), Input::Measure(y)) => same_measure_parts(x, y),
        (Input::Unmeasured, Input::Unmeasured) => true,
        (Input::Size(x), Input::Size(y)) => same_size_input(x, y),
        (Input::Place(x, at), Input::Place(y, other)) => {
            same_stand_input(at, other) && same_flow_parts(x, y)
        }
        (Input::PlaceTable(x, at), Input::PlaceTable(y, other)) => {
            same_stand_input(at, other) && same_table_parts(x, y)
        }
        _ => false,
    }
}
