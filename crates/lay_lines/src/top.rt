//! Where a line stands.

ghost use Rattle.std.specs.Prelude.{◌≡◌, ◌↔◌, ◌<◌, ℤ, ◌≤ℤ◌, ◌<ℤ◌, IsTrue, length, None, IfSome};
ghost use Rattle.lay_units.specs.Units.{IsPosition};
ghost use Rattle.lay_lines.specs.Content.Pens.{strut_height};
ghost use Rattle.lay_lines.specs.Meeting.{IsLineRoom, RoomsFit};
ghost use Rattle.lay_lines.specs.Filling.{HasFit, Begins, IsTop};
ghost use Rattle.lay_lines.specs.Reaching.{IsReach};

use crate::line::Line;
use crate::reach::Reach;
use lay_floats::Floats;
use lay_units::Unit;

/// Where a line begins: its top, and its room there, before all content.
#[derive(Clone, Copy)]
pub struct Beginning {
    pub top: Unit,
    pub blank: Reach,
}

/// The least top from that of `start` downward at which something fits or no float is beside the line.
pub fn line_top(floats: &Floats, start: &Line<'_>) -> Beginning
    requires rooms { RoomsFit start.now.frame floats.now start.now.stretches.now }
    requires some { 0 < length start.now.stretches.now }
    ensures top { IsTop start.now.frame start.now.top.0 start.now.stretches.now floats.now result.top.0 }
    ensures fits { IsPosition result.top.0 }
    ensures blank { IsReach start.now.frame result.top.0 start.now.stretches.now floats.now result.blank }
    ensures count { result.blank.count ≡ 0 }
{
    let mut top = start.top;
    loop {
        let line = Line {
            frame: start.frame,
            top,
            stretches: start.stretches,
        };
        let blank = Reach::first(floats, &line);
        match next_top(floats, &line, &blank) {
            None => return Beginning { top, blank },
            Some(bottom) => top = bottom,
        }
    }
}

/// The next top to try, where no line begins at this one.
fn next_top(floats: &Floats, line: &Line<'_>, blank: &Reach) -> Option<Unit>
    requires rooms { RoomsFit line.now.frame floats.now line.now.stretches.now }
    requires some { 0 < length line.now.stretches.now }
    requires blank { IsReach line.now.frame line.now.top.0 line.now.stretches.now floats.now blank.now }
    requires count { blank.now.count ≡ 0 }
    ensures begins { result ≡ None → Begins line.now.frame line.now.top.0 line.now.stretches.now floats.now }
    ensures lower { IfSome result (λ next. line.now.top.0 <ℤ next.0) }
    ensures none_higher { IfSome result (λ next. (z : ℤ) → Begins line.now.frame z line.now.stretches.now floats.now
        → line.now.top.0 ≤ℤ z → next.0 ≤ℤ z) }
    ensures fits { IfSome result (λ next. IsPosition next.0) }
{
    if first_fits(floats, line, blank) {
        return None;
    }
    floats.next_bottom(line.top, line.frame.strut_height())
}

/// Whether the first stretch fits.
fn first_fits(floats: &Floats, line: &Line<'_>, blank: &Reach) -> bool
    requires rooms { RoomsFit line.now.frame floats.now line.now.stretches.now }
    requires some { 0 < length line.now.stretches.now }
    requires blank { IsReach line.now.frame line.now.top.0 line.now.stretches.now floats.now blank.now }
    requires count { blank.now.count ≡ 0 }
    ensures fits { IsTrue result ↔ HasFit line.now.frame line.now.top.0 line.now.stretches.now 1 floats.now }
    ensures room { (a : ℤ) × (e : ℤ) × IsLineRoom line.now.frame line.now.top.0 floats.now a e }
{
    let first = blank.next(floats, line);
    first.fits(floats, line)
}
