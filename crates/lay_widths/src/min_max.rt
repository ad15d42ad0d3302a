//! Minimum and maximum widths.

ghost use Rattle.lay_widths.specs.Lengths.{LenFits};
ghost use Rattle.lay_widths.specs.MinMax.{IsBounded, AtMost, AtLeast};
ghost use Rattle.std.specs.Prelude.{◌≡◌, ℤ, IfSome};
ghost use Rattle.lay_units.specs.Units.{IsPosition};
ghost use Rattle.lay_units.specs.declared.records.Len.{Len};

use lay_units::{Len, Unit};

/// Rules that give used values, a width among them, for a computed width.
pub trait WidthRules {
    type Used: Copy;

    // what the rules need of what they are given
    ghost fit: { Self → Type 0 };

    // that they give these values for this computed width
    ghost give: { Self → Len → Self.Used → Type 0 };

    // the width among used values
    ghost width: { Self.Used → ℤ };

    /// The used values for this computed width.
    fn widths_for(&self, computed: Len) -> Self::Used
        requires fit { fit self.now }
        requires computed { LenFits computed }
        ensures { give self.now computed result };

    fn width_in(&self, used: Self::Used) -> i128
        ensures { result ≡ width used };
}

/// What the rules give for the computed width, bounded by the maximum and the minimum (CSS 2.2, 10.4).
//
// 1. The tentative widths are those of the computed width.
// 2. Where that is greater than the maximum, the rules run again with the maximum.
// 3. Where that is less than the minimum, the rules run again with the minimum.
pub fn bounded<R: WidthRules>(rules: &R, computed: Len, min: Unit, max: Option<Unit>) -> R::Used
    requires fit { R.fit rules.now }
    requires computed { LenFits computed }
    requires min { IsPosition min.0 }
    requires max { IfSome max (λ v. IsPosition v.0) }
    ensures { IsBounded R.width (R.give rules.now) computed min max result }
{
    let tentative = rules.widths_for(computed);
    let narrowed = at_most_max(rules, max, tentative);
    at_least_min(rules, min, narrowed)
}

fn at_most_max<R: WidthRules>(rules: &R, max: Option<Unit>, tentative: R::Used) -> R::Used
    requires fit { R.fit rules.now }
    requires max { IfSome max (λ v. IsPosition v.0) }
    ensures { AtMost R.width (R.give rules.now) max tentative result }
{
    match max {
        Some(max) if rules.width_in(tentative) > i128::from(max.0) => rules.widths_for(Len::Of(
            max,
        )),
        _ => tentative,
    }
}

fn at_least_min<R: WidthRules>(rules: &R, min: Unit, narrowed: R::Used) -> R::Used
    requires fit { R.fit rules.now }
    requires min { IsPosition min.0 }
    ensures { AtLeast R.width (R.give rules.now) min narrowed result }
{
    if rules.width_in(narrowed) < i128::from(min.0) {
        return rules.widths_for(Len::Of(min));
    }
    narrowed
}
