//! How far parts are raised (CSS 2.2, 10.8.1).

ghost use Rattle.std.specs.Prelude.{◌≡◌, ◌<◌, ◌+ℤ◌, ◌-ℤ◌, length, IfOk};
ghost use Rattle.lay_units.specs.Units.{IsPosition, half_of, IsWithinPower};
ghost use Rattle.lay_valign.specs.Raises.{raise_by, raise_of};
ghost use Rattle.lay_valign.specs.Subtrees.{rise_of};
ghost use Rattle.lay_valign.specs.PartsFit.{PartFits, PartsFit};
ghost use Rattle.lay_valign.specs.Pass.Columns.{IsRise, RisesTo};

use crate::parts::{Part, Shift, part_of};
use crate::sums::sum;
use lay_units::{NoMemory, Unit, clamp};
use std::alloc::Global;

/// For each part, how far its baseline stands above its root's.
pub fn rises_of(alloc: Global, parts: &[Part]) -> Result<Vec<i128>, NoMemory>
    requires { PartsFit parts.now }
    ensures { IfOk result (λ rises. RisesTo parts.now (length parts.now) rises.items) }
{
    let mut rises = Vec::new(alloc);
    for k in 0..parts.len() {
        let rise = rise(parts, rises.as_slice(), k);
        rises.push(rise)?;
    }
    Ok(rises)
}

fn rise(parts: &[Part], rises: &[i128], k: usize) -> i128
    requires parts { PartsFit parts.now }
    requires place { k < length parts.now }
    requires known { RisesTo parts.now k rises.now }
    ensures value { result ≡ rise_of parts.now rises.now k }
    ensures fits { IsRise k result }
{
    if k == 0 {
        return 0;
    }
    let part = part_of(parts, k);
    if part.shift.begins_subtree() {
        return 0;
    }
    sum(rises[part.parent as usize], raise(part))
}

/// How far a part's baseline stands above its parent's, if it begins no subtree.
fn raise(part: Part) -> i128
    requires { PartFits part }
    ensures value { result ≡ raise_of part }
    ensures within { IsWithinPower 31 result }
{
    i128::from(clamp(raise_by(part)).0)
}

/// The same before it is held within bounds.
fn raise_by(part: Part) -> i128
    requires { PartFits part }
    ensures value { result ≡ raise_by part.shift part.above.0 part.below.0 }
    ensures within { IsWithinPower 63 result }
{
    match part.shift {
        Shift::By(length) => i128::from(length.0),
        Shift::Middle(x_height) => floor_half(middle_gap(x_height, part)),
        Shift::TextTop(ascent) => difference(ascent, part.above),
        Shift::TextBottom(descent) => difference(part.below, descent),
        Shift::Top | Shift::Bottom => 0,
    }
}

fn middle_gap(x_height: Unit, part: Part) -> i128
    requires x_height { IsPosition x_height.0 }
    requires part { PartFits part }
    ensures value { result ≡ x_height.0 +ℤ (part.below.0 -ℤ part.above.0) }
    ensures within { IsWithinPower 64 result }
{
    i128::from(x_height.0) + difference(part.below, part.above)
}

fn difference(a: Unit, b: Unit) -> i128
    requires a { IsPosition a.0 }
    requires b { IsPosition b.0 }
    ensures value { result ≡ a.0 -ℤ b.0 }
    ensures within { IsWithinPower 63 result }
{
    i128::from(a.0) - i128::from(b.0)
}

fn floor_half(v: i128) -> i128
    requires { IsWithinPower 64 v }
    ensures value { result ≡ half_of v }
    ensures within { IsWithinPower 63 result }
{
    v.div_euclid(2)
}
