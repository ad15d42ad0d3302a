//! Minimum and maximum heights.

ghost use Rattle.std.specs.Prelude.{◌≡◌};
ghost use Rattle.lay_heights.specs.MinMax.{with_min_max_of};

use lay_units::Unit;

/// A height within `min-height` and `max-height`, of which the former has the last word; no
/// `max-height` is None (CSS 2.2, 10.7). All are in 1/64 px.
//
// 1. The height is the tentative one.
// 2. Where that is greater than the maximum, it is the maximum.
// 3. Where that is less than the minimum, it is the minimum.
pub fn with_min_max(height: Unit, min: Unit, max: Option<Unit>) -> Unit
    ensures { result.0 ≡ with_min_max_of height.0 min.0 max }
{
    let bounded = match max {
        Some(max) => height.0.min(max.0),
        None => height.0,
    };
    Unit(bounded.max(min.0))
}
