//! How far a line has come in its room.

ghost use Rattle.std.specs.Prelude.{◌≡◌, ◌↔◌, ◌+◌, ◌<◌, ◌≤◌, IsTrue, length};
ghost use Rattle.lay_units.specs.Units.{IsPosition};
ghost use Rattle.lay_lines.specs.Content.Pens.{seen_to};
ghost use Rattle.lay_lines.specs.Meeting.{HasRoom, RoomsFit};
ghost use Rattle.lay_lines.specs.Filling.{HasFit, TakesNoRoom};
ghost use Rattle.lay_lines.specs.Reaching.{IsPen, IsReach};

use crate::arithmetic::{are_same, is_at_most, wide_plus};
use crate::content::Pen;
use crate::line::Line;
use lay_floats::{Floats, one_room};
use lay_units::{Unit, wide_minus};

/// How far the first stretches of a line come, in the room between two edges.
#[derive(Clone, Copy)]
pub struct Reach {
    pub count: usize,
    pub start: Unit,
    pub end: Unit,
    pub pen: Pen,
}

impl Reach {
    /// Before all content, in the whole width of the container.
    pub(crate) fn none(line: &Line<'_>) -> Reach
        ensures pen { IsPen line.now.frame line.now.stretches.now result }
        ensures count { result.count ≡ 0 }
    {
        let frame = &line.frame;
        let start = frame.left;
        Reach {
            count: 0,
            start,
            end: frame.right,
            pen: Pen::blank(frame, start),
        }
    }

    /// Before all content, in the room that these floats leave.
    pub(crate) fn first(floats: &Floats, line: &Line<'_>) -> Reach
        requires rooms { RoomsFit line.now.frame floats.now line.now.stretches.now }
        ensures reach { IsReach line.now.frame line.now.top.0 line.now.stretches.now floats.now result }
        ensures count { result.count ≡ 0 }
    {
        let (start, end) = line.room(floats);
        Reach {
            count: 0,
            start,
            end,
            pen: Pen::blank(&line.frame, start),
        }
    }

    /// After one stretch more, in the same room.
    pub(crate) fn next(self, floats: &Floats, line: &Line<'_>) -> Reach
        requires rooms { RoomsFit line.now.frame floats.now line.now.stretches.now }
        requires reach { IsReach line.now.frame line.now.top.0 line.now.stretches.now floats.now self }
        requires some { self.count < length line.now.stretches.now }
        ensures reach { IsReach line.now.frame line.now.top.0 line.now.stretches.now floats.now result }
        ensures count { result.count ≡ self.count + 1 }
    {
        let _ = floats;
        Reach {
            count: self.count + 1,
            start: self.start,
            end: self.end,
            pen: self.pen.past(&line.frame, &line.stretches[self.count]),
        }
    }

    /// The reach of these stretches, in the room that these floats leave.
    pub(crate) fn in_room(self, floats: &Floats, line: &Line<'_>) -> Reach
        requires pen { IsPen line.now.frame line.now.stretches.now self }
        requires rooms { RoomsFit line.now.frame floats.now line.now.stretches.now }
        requires count { self.count ≤ length line.now.stretches.now }
        ensures reach { IsReach line.now.frame line.now.top.0 line.now.stretches.now floats.now result }
        ensures count { result.count ≡ self.count }
    {
        let (start, end) = line.room(floats);
        let pen = if are_same(start, self.start) {
            self.pen
        } else {
            Pen::to(&line.frame, start, line.stretches, self.count)
        };
        Reach {
            count: self.count,
            start,
            end,
            pen,
        }
    }

    /// Whether the content fits, spaces at its end not counted.
    pub(crate) fn fits(&self, floats: &Floats, line: &Line<'_>) -> bool
        requires reach { IsReach line.now.frame line.now.top.0 line.now.stretches.now floats.now self.now }
        ensures { IsTrue result ↔ HasFit line.now.frame line.now.top.0 line.now.stretches.now self.now.count
            floats.now }
    {
        one_room();
        let _ = floats;
        is_at_most(self.pen.visible, wide_minus(self.end, line.frame.left))
    }

    /// Whether the last of these stretches takes no room behind those before it.
    pub(crate) fn takes_no_room(&self, floats: &Floats, line: &Line<'_>, before: &Reach) -> bool
        requires before { IsReach line.now.frame line.now.top.0 line.now.stretches.now floats.now before.now }
        requires reach { IsReach line.now.frame line.now.top.0 line.now.stretches.now floats.now self.now }
        requires count { self.now.count ≡ before.now.count + 1 }
        ensures { IsTrue result ↔ TakesNoRoom line.now.frame line.now.top.0 line.now.stretches.now before.now.count
            floats.now }
    {
        one_room();
        let _ = floats;
        let _ = line;
        is_at_most(self.pen.visible, before.pen.visible)
    }

    /// Whether a float of this width fits beside the content, in the room that these floats leave.
    pub(crate) fn has_room(&self, floats: &Floats, line: &Line<'_>, width: Unit) -> bool
        requires pen { IsPen line.now.frame line.now.stretches.now self.now }
        requires rooms { RoomsFit line.now.frame floats.now line.now.stretches.now }
        requires count { self.now.count ≤ length line.now.stretches.now }
        requires width { IsPosition width.0 }
        ensures { IsTrue result ↔ HasRoom line.now.frame line.now.top.0 line.now.stretches.now self.now.count
            floats.now width.0 }
    {
        let here = self.in_room(floats, line);
        here.leaves_room(floats, line, width)
    }

    fn leaves_room(&self, floats: &Floats, line: &Line<'_>, width: Unit) -> bool
        requires width { IsPosition width.0 }
        requires reach { IsReach line.now.frame line.now.top.0 line.now.stretches.now floats.now self.now }
        ensures { IsTrue result ↔ HasRoom line.now.frame line.now.top.0 line.now.stretches.now self.now.count
            floats.now width.0 }
    {
        one_room();
        let _ = floats;
        is_at_most(
            wide_plus(self.pen.solid, width),
            wide_minus(self.end, line.frame.left),
        )
    }

    /// Whether something of the content is seen.
    pub(crate) fn is_seen(&self, line: &Line<'_>) -> bool
        requires { IsPen line.now.frame line.now.stretches.now self.now }
        ensures { result ≡ seen_to line.now.frame line.now.stretches.now self.now.count }
    {
        let _ = line;
        self.pen.seen
    }
}
