//! Columns that share what a table has beyond their minimums (CSS 2.2, 17.5.2.2).

ghost use Rattle.std.specs.Prelude.{◌≡◌, ◌*◌, ◌+◌, ◌^◌, ◌<◌, ◌≤◌, pos, ◌≤ℤ◌, ◌-ℤ◌, length, IfOk, All};
ghost use Rattle.lay_grid.specs.Automatic.AutoColumns.{AreInProportion, beyond_minimums};
ghost use Rattle.lay_grid.specs.Automatic.AutoColumns.{most_left_over, room, share_of};
ghost use Rattle.lay_grid.specs.Automatic.AutoColumns.{sum_max, sum_min, sum_room};
ghost use Rattle.lay_grid.specs.Automatic.Fit.{BoundFits, SpaceFits};
ghost use Rattle.lay_grid.specs.Automatic.Pass.Steps.{sum_shares};

use crate::automatic::bounds::Bound;
use lay_units::{NoMemory, Unit, UnitList};
use std::alloc::Global;

/// The widths of columns in a space that is no greater than their maximums together.
pub fn in_proportion(alloc: Global, bounds: &[Bound], space: Unit) -> Result<UnitList, NoMemory>
    requires space { SpaceFits bounds.now space.0 }
    requires within { space.0 ≤ℤ sum_max bounds.now }
    ensures { IfOk result (λ widths. AreInProportion bounds.now space.0 widths) }
{
    let rest = rest_of(bounds, space);
    let rooms = rooms_of(bounds);
    let mut more = rest - shares(bounds, rest, rooms);
    let mut widths = Vec::new(alloc);
    for bound in bounds {
        let unit = more.min(most(*bound));
        more = more - unit;
        widths.push(Unit(bound.min.0 + (share(*bound, rest, rooms) + unit) as i64))?;
    }
    Ok(UnitList::new(widths))
}

/// What the minimums leave of the space.
fn rest_of(bounds: &[Bound], space: Unit) -> u64
    requires space { SpaceFits bounds.now space.0 }
    ensures value { result ≡ beyond_minimums bounds.now space.0 }
    ensures rest { pos result ≡ (space.0 -ℤ sum_min bounds.now) }
    ensures below { result < 2 ^ 62 }
{
    let mut rest = space.0;
    for bound in bounds {
        rest = rest - bound.min.0;
    }
    rest as u64
}

/// How far the maximums together are above the minimums.
fn rooms_of(bounds: &[Bound]) -> u128
    requires few { length bounds.now < 2 ^ 32 }
    requires bounds { All BoundFits bounds.now }
    ensures value { result ≡ sum_room bounds.now }
{
    let mut rooms = 0;
    for bound in bounds {
        rooms = rooms + u128::from(room_of(*bound));
    }
    rooms
}

fn room_of(bound: Bound) -> u64
    requires bound { BoundFits bound }
    ensures value { result ≡ room bound }
    ensures below { result < 2 ^ 62 }
{
    (bound.max.0 - bound.min.0) as u64
}

/// A column's share, rounded down.
fn share(bound: Bound, rest: u64, rooms: u128) -> u64
    requires bound { BoundFits bound }
    requires rest { rest < 2 ^ 62 }
    requires room { room bound ≤ rooms }
    ensures value { result ≡ share_of rest rooms bound }
    ensures most { result ≤ rest }
{
    if rooms == 0 {
        return 0;
    }
    (u128::from(rest) * u128::from(room_of(bound)) / rooms) as u64
}

/// The most that a column has beyond its share.
fn most(bound: Bound) -> u64
    requires { BoundFits bound }
    ensures { result ≡ most_left_over bound }
{
    u64::from(bound.min.0 < bound.max.0)
}

/// The shares together.
fn shares(bounds: &[Bound], rest: u64, rooms: u128) -> u64
    requires few { length bounds.now < 2 ^ 32 }
    requires bounds { All BoundFits bounds.now }
    requires rest { rest < 2 ^ 62 }
    requires rooms { rooms ≡ sum_room bounds.now }
    ensures value { result ≡ sum_shares rest rooms bounds.now }
    ensures most { result ≤ rest }
{
    let mut sum = 0;
    for bound in bounds {
        sum = sum + share(*bound, rest, rooms);
    }
    sum
}
