//! Runs of margins that grow and end.

ghost use Rattle.std.specs.Prelude.{◌≡◌, ℤ, ◌+ℤ◌, ◌-ℤ◌, List, ◌∷◌, ◌++◌, [], true, false};
ghost use Rattle.lay_units.specs.Units.{IsUsed, IsNear};
ghost use Rattle.lay_margins.specs.Collapse.{Holds, collapse};
ghost use Rattle.lay_flow.specs.Pass.Bounds.{is_hanging, position_of};

use crate::blocks::Near;
use crate::pass::RunStart;
use crate::used_strut::UsedStrut;
use lay_margins::Strut;
use lay_units::{Unit, sum_of};

/// The strut with one more margin.
pub(crate) fn with_margin(used: UsedStrut, margin: Unit) -> UsedStrut
    requires { IsUsed margin.0 }
    ensures { (margins : List ℤ) → Holds used.strut margins → Holds result.strut (margins ++ margin.0 ∷ []) }
{
    UsedStrut {
        strut: used.strut.add(margin),
    }
}

/// The strut that holds one margin.
pub(crate) fn lone_margin(margin: Unit) -> UsedStrut
    requires { IsUsed margin.0 }
    ensures { Holds result.strut (margin.0 ∷ []) }
{
    with_margin(no_margin(), margin)
}

/// The strut that holds no margin.
pub(crate) fn no_margin() -> UsedStrut
    ensures { Holds result.strut [] }
{
    UsedStrut {
        strut: Strut::zero(),
    }
}

/// Where a run ends.
pub(crate) fn end_of(start: RunStart, used: UsedStrut) -> Unit
    requires { IsNear (position_of start) }
    ensures hanging { is_hanging start ≡ true → result.0 ≡ position_of start }
    ensures value { is_hanging start ≡ false → (margins : List ℤ) → Holds used.strut margins
        → result.0 ≡ position_of start +ℤ collapse margins }
    ensures near { IsUsed (result.0 -ℤ position_of start) }
{
    match start {
        RunStart::At(start) => run_end(Near { unit: start }, used),
        RunStart::HangsFrom(edge) => edge,
    }
}

/// Where a run ends that starts at `start`.
pub(crate) fn run_end(start: Near, used: UsedStrut) -> Unit
    ensures value { (margins : List ℤ) → Holds used.strut margins → result.0 ≡ start.unit.0 +ℤ collapse margins }
    ensures near { IsUsed (result.0 -ℤ start.unit.0) }
{
    sum_of(start.unit, strut_sum(used))
}

/// Where a run starts that ends at `end`.
pub(crate) fn run_start(end: Near, used: UsedStrut) -> Unit
    ensures value { (margins : List ℤ) → Holds used.strut margins → result.0 ≡ end.unit.0 -ℤ collapse margins }
    ensures near { IsUsed (end.unit.0 -ℤ result.0) }
{
    Unit(end.unit.0 - strut_sum(used).0)
}

fn strut_sum(used: UsedStrut) -> Unit
    ensures value { (margins : List ℤ) → Holds used.strut margins → result.0 ≡ collapse margins }
    ensures near { IsUsed result.0 }
{
    used.strut.sum()
}
