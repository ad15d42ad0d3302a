//! A line meets floats.

ghost use Rattle.std.specs.Prelude.{◌≡◌, ◌≤◌, ℤ, IsTrue, IsFalse, length, IfOk, IfErr};
ghost use Rattle.lay_floats.specs.FloatPlace.{IsFloatPlace};
ghost use Rattle.lay_lines.specs.Meeting.{
  State,
  state_of,
  below,
  MayFloatStand,
  MeetsFloat,
  Meets,
  CanMeet,
  CanMeetAll,
  RoomsFit,
  IsFront,
};
ghost use Rattle.lay_lines.specs.Content.Pens.{seen_to};
ghost use Rattle.lay_lines.specs.Reaching.{IsPen};

use crate::arithmetic::are_same;
use crate::content::LineFloat;
use crate::line::Line;
use crate::met::Met;
use crate::reach::Reach;
use lay_floats::{FloatReq, Floats, NodePlace, one_float_place};
use lay_units::{NoMemory, Unit};

/// After so much of its content a line meets floats, one after the other.
pub fn meet_all(
    floats: &mut Floats,
    met: &mut Met,
    line: &Line<'_>,
    reach: &Reach,
    list: &[LineFloat],
) -> Result<(), NoMemory>
    requires pen { IsPen line.now.frame line.now.stretches.now reach.now }
    requires count { reach.now.count ≤ length line.now.stretches.now }
    requires floats { CanMeetAll line.now.frame line.now.top.0 line.now.stretches.now reach.now.count list.now
        (state_of floats.old met.old) }
    ensures meets { IfOk result (λ _. Meets line.now.frame line.now.top.0 line.now.stretches.now reach.now.count
        list.now (state_of floats.old met.old) (state_of floats.new met.new)) }
    ensures stopped { IfErr result (λ _. (after : State)
        → Meets line.now.frame line.now.top.0 line.now.stretches.now reach.now.count list.now
        (state_of floats.old met.old) after → IsFront floats.new after.floats) }
{
    one_float_place();
    for float in list {
        meet(floats, met, line, reach, float)?;
    }
    Ok(())
}

fn meet(
    floats: &mut Floats,
    met: &mut Met,
    line: &Line<'_>,
    reach: &Reach,
    float: &LineFloat,
) -> Result<(), NoMemory>
    requires pen { IsPen line.now.frame line.now.stretches.now reach.now }
    requires count { reach.now.count ≤ length line.now.stretches.now }
    requires rooms { RoomsFit line.now.frame floats.old line.now.stretches.now }
    requires float { CanMeet line.now.top.0 floats.old float.now.req }
    ensures meets { IfOk result
        (λ _. MeetsFloat line.now.frame line.now.top.0 line.now.stretches.now reach.now.count
        (state_of floats.old met.old) float.now (state_of floats.new met.new)) }
    ensures stopped { IfErr result (λ _. (after : State)
        → MeetsFloat line.now.frame line.now.top.0 line.now.stretches.now reach.now.count
        (state_of floats.old met.old) float.now after → IsFront floats.new after.floats) }
{
    one_float_place();
    if has_to_wait(floats, met, line, reach, &float.req) {
        met.put_off.push(*float)?;
        return Ok(());
    }
    let place = floats.place(&below(line.top, &float.req))?;
    met.places.push(NodePlace {
        node: float.node,
        place,
    })?;
    Ok(())
}

/// Whether the float has to wait until the line is over.
fn has_to_wait(floats: &Floats, met: &Met, line: &Line<'_>, reach: &Reach, req: &FloatReq) -> bool
    requires pen { IsPen line.now.frame line.now.stretches.now reach.now }
    requires count { reach.now.count ≤ length line.now.stretches.now }
    requires rooms { RoomsFit line.now.frame floats.now line.now.stretches.now }
    requires float { CanMeet line.now.top.0 floats.now req.now }
    ensures stands { IsFalse result → (x z : ℤ)
        → IsFloatPlace floats.now (below line.now.top.0 req.now) x z
        → MayFloatStand line.now.frame line.now.top.0 line.now.stretches.now reach.now.count
        (state_of floats.now met.now) req.now x z }
    ensures seen { IsTrue result → IsTrue (seen_to line.now.frame line.now.stretches.now reach.now.count) }
    ensures waits { IsTrue result → (x z : ℤ)
        → MayFloatStand line.now.frame line.now.top.0 line.now.stretches.now reach.now.count
        (state_of floats.now met.now) req.now x z → ⊥ }
{
    one_float_place();
    if !reach.is_seen(line) {
        return false;
    }
    if !met.put_off.is_empty() || !reach.has_room(floats, line, req.width) {
        return true;
    }
    let place = floats.place_of(&below(line.top, req));
    !are_same(place.y, line.top)
}

fn below(top: Unit, req: &FloatReq) -> FloatReq
    ensures { result ≡ below top.0 req.now }
{
    FloatReq {
        side: req.side,
        width: req.width,
        height: req.height,
        left: req.left,
        right: req.right,
        ceiling: top,
        clear: req.clear,
    }
}
