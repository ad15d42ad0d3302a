//! What a line takes.

ghost use Rattle.std.specs.Prelude.{◌≡◌, ◌↔◌, suc, ◌+◌, ◌<◌, ◌≤◌, ℕ, IsTrue, IsFalse, length, slice_get, Some, IfOk, IfErr, OnOk};
ghost use Rattle.lay_floats.specs.SolidPlace.{IsAlone};
ghost use Rattle.lay_lines.specs.declared.content.content.Stretch.{Stretch as StretchValue};
ghost use Rattle.lay_lines.specs.Content.Pens.{strut_height};
ghost use Rattle.lay_lines.specs.Meeting.{State, state_of, Meets, CanMeetAll, RoomsFit, IsFront};
ghost use Rattle.lay_lines.specs.Filling.{FitsNext, TakesNext, Fills, Takes, CanFill};
ghost use Rattle.lay_lines.specs.Reaching.{IsReach};

use crate::content::LineFloat;
use crate::line::Line;
use crate::meeting::meet_all;
use crate::met::Met;
use crate::reach::Reach;
use lay_floats::{Floats, one_float_place};
use lay_units::NoMemory;

/// A line takes stretches as long as they fit or take no room, from before all content. The answer is how far they come.
pub fn take(
    floats: &mut Floats,
    met: &mut Met,
    line: &Line<'_>,
    blank: Reach,
) -> Result<Reach, NoMemory>
    requires can { CanFill line.now.frame line.now.top.0 line.now.stretches.now (state_of floats.old met.old) }
    requires blank { IsReach line.now.frame line.now.top.0 line.now.stretches.now floats.old blank }
    requires count { blank.count ≡ 0 }
    ensures takes { IfOk result (λ t. Takes line.now.frame line.now.top.0 line.now.stretches.now
        (state_of floats.old met.old) t.count) }
    ensures fills { IfOk result (λ t. Fills line.now.frame line.now.top.0 line.now.stretches.now t.count
        (state_of floats.old met.old) (state_of floats.new met.new)) }
    ensures reach { IfOk result (λ t. IsReach line.now.frame line.now.top.0 line.now.stretches.now floats.new t) }
    ensures stopped { IfErr result (λ _. (n : ℕ) (after : State)
        → Takes line.now.frame line.now.top.0 line.now.stretches.now (state_of floats.old met.old) n
        → Fills line.now.frame line.now.top.0 line.now.stretches.now n (state_of floats.old met.old) after
        → IsFront floats.new after.floats) }
{
    one_float_place();
    let mut reach = blank;
    for k in 0..line.stretches.len() {
        if !take_next(floats, met, line, &mut reach)? {
            return Ok(reach);
        }
        if line.stretches[k].forced {
            return Ok(reach);
        }
    }
    Ok(reach)
}

/// Takes one more stretch where it fits. Whether it does.
fn take_next(
    floats: &mut Floats,
    met: &mut Met,
    line: &Line<'_>,
    reach: &mut Reach,
) -> Result<bool, NoMemory>
    requires reach { IsReach line.now.frame line.now.top.0 line.now.stretches.now floats.old reach.old }
    requires some { reach.old.count < length line.now.stretches.now }
    requires rooms { RoomsFit line.now.frame floats.old line.now.stretches.now }
    requires floats { (s : StretchValue) → slice_get line.now.stretches.now reach.old.count ≡ Some s
        → CanMeetAll line.now.frame line.now.top.0 line.now.stretches.now
        (suc reach.old.count) s.floats (state_of floats.old met.old) }
    ensures takes { IfOk result (λ taken. IsTrue taken
        → TakesNext line.now.frame line.now.top.0 line.now.stretches.now reach.old.count
        (state_of floats.old met.old) (state_of floats.new met.new)) }
    ensures reach { OnOk result (IsReach line.now.frame line.now.top.0 line.now.stretches.now floats.new reach.new) }
    ensures count { IfOk result (λ taken. IsTrue taken → reach.new.count ≡ reach.old.count + 1) }
    ensures fits { IfOk result (λ taken. IsTrue taken
        → FitsNext line.now.frame line.now.top.0 line.now.stretches.now reach.old.count floats.old) }
    ensures full { IfOk result (λ taken. IsFalse taken
        → FitsNext line.now.frame line.now.top.0 line.now.stretches.now reach.old.count floats.old → ⊥) }
    ensures same { IfOk result (λ taken. IsFalse taken → state_of floats.new met.new
        ≡ state_of floats.old met.old) }
    ensures same_reach { IfOk result (λ taken. IsFalse taken → reach.new ≡ reach.old) }
    ensures stopped { IfErr result (λ _. (after : State)
        → TakesNext line.now.frame line.now.top.0 line.now.stretches.now reach.old.count
        (state_of floats.old met.old) after → IsFront floats.new after.floats) }
    ensures stopped_in { IfErr result
        (λ _. FitsNext line.now.frame line.now.top.0 line.now.stretches.now reach.old.count floats.old) }
{
    let next = reach.next(floats, line);
    if !is_taken(floats, line, reach, &next) {
        return Ok(false);
    }
    let list = line.stretches[reach.count].floats.as_slice();
    *reach = next;
    meet_after(floats, met, line, reach, list)?;
    Ok(true)
}

/// Whether a stretch more is taken, with which the line comes this far: it fits; or it is the first and no float is
/// beside the line; or it is a later one and takes no room.
fn is_taken(floats: &Floats, line: &Line<'_>, reach: &Reach, next: &Reach) -> bool
    requires reach { IsReach line.now.frame line.now.top.0 line.now.stretches.now floats.now reach.now }
    requires next { IsReach line.now.frame line.now.top.0 line.now.stretches.now floats.now next.now }
    requires count { next.now.count ≡ reach.now.count + 1 }
    ensures { IsTrue result ↔ FitsNext line.now.frame line.now.top.0 line.now.stretches.now reach.now.count
        floats.now }
{
    if next.fits(floats, line) {
        return true;
    }
    if is_zero(reach.count) {
        return is_alone(floats, line);
    }
    next.takes_no_room(floats, line, reach)
}

fn is_zero(count: usize) -> bool
    ensures { IsTrue result ↔ count ≡ 0 }
{
    count == 0
}

fn is_alone(floats: &Floats, line: &Line<'_>) -> bool
    ensures { IsTrue result ↔ IsAlone floats.now line.now.top.0 (strut_height line.now.frame) }
{
    floats
        .next_bottom(line.top, line.frame.strut_height())
        .is_none()
}

/// The floats of a stretch are met after it, and may leave another room.
fn meet_after(
    floats: &mut Floats,
    met: &mut Met,
    line: &Line<'_>,
    reach: &mut Reach,
    list: &[LineFloat],
) -> Result<(), NoMemory>
    requires reach { IsReach line.now.frame line.now.top.0 line.now.stretches.now floats.old reach.old }
    requires count { reach.old.count ≤ length line.now.stretches.now }
    requires floats { CanMeetAll line.now.frame line.now.top.0 line.now.stretches.now reach.old.count list.now
        (state_of floats.old met.old) }
    ensures meets { OnOk result (Meets line.now.frame line.now.top.0 line.now.stretches.now reach.old.count
        list.now (state_of floats.old met.old) (state_of floats.new met.new)) }
    ensures reach { OnOk result (IsReach line.now.frame line.now.top.0 line.now.stretches.now floats.new reach.new) }
    ensures count { OnOk result (reach.new.count ≡ reach.old.count) }
    ensures stopped { IfErr result (λ _. (after : State)
        → Meets line.now.frame line.now.top.0 line.now.stretches.now reach.old.count list.now
        (state_of floats.old met.old) after → IsFront floats.new after.floats) }
{
    if list.is_empty() {
        return Ok(());
    }
    meet_all(floats, met, line, reach, list)?;
    *reach = reach.in_room(floats, line);
    Ok(())
}
