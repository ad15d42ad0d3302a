//! How far aligned subtrees reach (CSS 2.2, 10.8.1).

ghost use Rattle.std.specs.Prelude.{◌≡◌, ◌<◌, ◌≤◌, ◌+ℤ◌, ◌-ℤ◌, length, IfOk, OnOk, All};
ghost use Rattle.lay_units.specs.Units.{IsPosition, IsWithinPower};
ghost use Rattle.lay_valign.specs.Subtrees.{above_of, below_of};
ghost use Rattle.lay_valign.specs.PartsFit.{PartsFit};
ghost use Rattle.lay_valign.specs.Pass.Columns.{StandFirst};
ghost use Rattle.lay_valign.specs.Pass.Reaches.{ReachesTo, widened};

use crate::parts::{Part, part_of};
use lay_units::{NoMemory, Unit};
use std::alloc::Global;

/// How far each subtree reaches above its root's baseline, told at the root's place.
pub fn aboves_of(
    alloc: Global,
    parts: &[Part],
    roots: &[usize],
    rises: &[i128],
) -> Result<Vec<i128>, NoMemory>
    requires parts { PartsFit parts.now }
    requires roots { length roots.now ≡ length parts.now }
    requires first { StandFirst roots.now }
    requires as_many { length rises.now ≡ length parts.now }
    requires rises { All (IsWithinPower 63) rises.now }
    ensures { IfOk result (λ aboves. ReachesTo roots.now (above_of parts.now rises.now) (length parts.now) aboves.items) }
{
    let mut aboves = Vec::new(alloc);
    for k in 0..parts.len() {
        widen(
            &mut aboves,
            roots[k],
            sum(rises[k], part_of(parts, k).above),
        )?;
    }
    Ok(aboves)
}

/// How far each subtree reaches below its root's baseline, told at the root's place.
pub fn belows_of(
    alloc: Global,
    parts: &[Part],
    roots: &[usize],
    rises: &[i128],
) -> Result<Vec<i128>, NoMemory>
    requires parts { PartsFit parts.now }
    requires roots { length roots.now ≡ length parts.now }
    requires first { StandFirst roots.now }
    requires as_many { length rises.now ≡ length parts.now }
    requires rises { All (IsWithinPower 63) rises.now }
    ensures { IfOk result (λ belows. ReachesTo roots.now (below_of parts.now rises.now) (length parts.now) belows.items) }
{
    let mut belows = Vec::new(alloc);
    for k in 0..parts.len() {
        widen(
            &mut belows,
            roots[k],
            difference(part_of(parts, k).below, rises[k]),
        )?;
    }
    Ok(belows)
}

fn widen(reaches: &mut Vec<i128>, root: usize, reach: i128) -> Result<(), NoMemory>
    requires root { root ≤ length reaches.old.items }
    ensures { OnOk result (reaches.new.items ≡ widened reaches.old.items root reach) }
{
    reaches.push(reach)?;
    reaches[root] = reaches[root].max(reach);
    Ok(())
}

fn sum(rise: i128, above: Unit) -> i128
    requires rise { IsWithinPower 63 rise }
    requires above { IsPosition above.0 }
    ensures value { result ≡ rise +ℤ above.0 }
    ensures within { IsWithinPower 64 result }
{
    rise + i128::from(above.0)
}

fn difference(below: Unit, rise: i128) -> i128
    requires below { IsPosition below.0 }
    requires rise { IsWithinPower 63 rise }
    ensures value { result ≡ below.0 -ℤ rise }
    ensures within { IsWithinPower 64 result }
{
    i128::from(below.0) - rise
}
