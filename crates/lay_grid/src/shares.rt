//! Columns that share a width (CSS 2.2, 17.5.2.1).

ghost use Rattle.std.specs.Prelude.{◌≡◌, ◌+◌, ◌^◌, ◌<◌, pos, ◌+ℤ◌, ◌-ℤ◌, true, false};
ghost use Rattle.std.specs.Prelude.{length, IfOk, All, List};
ghost use Rattle.std.specs.Int.{int_max};
ghost use Rattle.lay_units.specs.declared.length.Unit.{Unit};
ghost use Rattle.lay_units.specs.Units.{IsPosition, IsWithinPower};
ghost use Rattle.lay_grid.specs.Lengths.{ArePositions, MayBePosition};
ghost use Rattle.lay_grid.specs.Shares.{AreShared, all_own, own_width, sum_own, takes_share};
ghost use Rattle.lay_grid.specs.Pass.Sharing.{count_takers};

use lay_units::{NoMemory, Unit, UnitList};
use std::alloc::Global;

/// The widths of columns with these own widths that share the width `asked`.
pub fn share_out(alloc: Global, owns: &[Option<Unit>], asked: i128) -> Result<UnitList, NoMemory>
    requires few { length owns.now < 2 ^ 32 }
    requires owns { All MayBePosition owns.now }
    requires asked { IsWithinPower 96 asked }
    requires widths { (widths : List Unit) → AreShared owns.now asked widths → ArePositions widths }
    ensures { IfOk result (λ widths. AreShared owns.now asked widths) }
{
    let mut widths = Vec::new(alloc);
    if owns.is_empty() {
        return Ok(UnitList::new(widths));
    }
    let all = all_have_own(owns);
    let rest = rest_of(owns, asked);
    let takers = takers_of(owns, all);
    let each = rest / takers;
    let mut more = rest % takers;
    for own in owns {
        let width = widened(*own, all, each, more);
        more = left_over(*own, all, more);
        widths.push(Unit(width as i64))?;
    }
    Ok(UnitList::new(widths))
}

fn all_have_own(owns: &[Option<Unit>]) -> bool
    ensures { result ≡ all_own owns.now }
{
    for own in owns {
        if own.is_none() {
            return false;
        }
    }
    true
}

/// What the columns' own widths leave of the width that is asked, if anything.
fn rest_of(owns: &[Option<Unit>], asked: i128) -> u128
    requires few { length owns.now < 2 ^ 32 }
    requires owns { All MayBePosition owns.now }
    requires asked { IsWithinPower 96 asked }
    ensures value { pos result ≡ int_max (pos 0) (asked -ℤ sum_own owns.now) }
    ensures below { result < 2 ^ 100 }
{
    let mut rest = asked;
    for own in owns {
        rest = rest - i128::from(width_of(*own));
    }
    rest.max(0) as u128
}

fn width_of(own: Option<Unit>) -> i64
    requires own { MayBePosition own }
    ensures value { result ≡ own_width own }
    ensures fits { IsPosition result }
{
    match own {
        Some(width) => width.0,
        None => 0,
    }
}

/// How many columns take a share.
fn takers_of(owns: &[Option<Unit>], all: bool) -> u128
    requires some { 0 < length owns.now }
    requires all { all ≡ all_own owns.now }
    ensures count { result ≡ count_takers all owns.now }
    ensures some { 0 < result }
{
    let mut takers = 0;
    for own in owns {
        takers = takers + u128::from(takes_share(*own, all));
    }
    takers
}

fn takes_share(own: Option<Unit>, all: bool) -> bool
    ensures { result ≡ takes_share all own }
{
    match own {
        Some(_) => all,
        None => true,
    }
}

/// A column's width with its share, of which `more` are greater by a unit.
fn widened(own: Option<Unit>, all: bool, each: u128, more: u128) -> i128
    requires own { MayBePosition own }
    requires each { each < 2 ^ 100 }
    ensures kept { takes_share all own ≡ false → result ≡ own_width own }
    ensures greater { takes_share all own ≡ true → 0 < more → result ≡ (own_width own +ℤ pos (each + 1)) }
    ensures lesser { takes_share all own ≡ true → more ≡ 0 → result ≡ (own_width own +ℤ pos each) }
{
    let width = i128::from(width_of(own));
    if !takes_share(own, all) {
        return width;
    }
    if more > 0 {
        return width + (each + 1) as i128;
    }
    width + each as i128
}

fn left_over(own: Option<Unit>, all: bool, more: u128) -> u128
    ensures kept { takes_share all own ≡ false → result ≡ more }
    ensures less { takes_share all own ≡ true → 0 < more → result + 1 ≡ more }
    ensures none { takes_share all own ≡ true → more ≡ 0 → result ≡ 0 }
{
    if takes_share(own, all) {
        more.saturating_sub(1)
    } else {
        more
    }
}
