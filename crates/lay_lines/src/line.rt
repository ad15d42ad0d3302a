//! A line at some top.

ghost use Rattle.lay_units.specs.Units.{IsPosition};
ghost use Rattle.lay_lines.specs.Meeting.{FrameFits, IsLineRoom};

use crate::content::{Frame, Stretch};
use lay_floats::Floats;
use lay_units::Unit;

/// A line at some top, and the content that comes to it.
#[derive(Clone, Copy)]
pub struct Line<'a> {
    pub frame: Frame,
    pub top: Unit,
    pub stretches: &'a [Stretch],
    ghost frame_fits: { FrameFits frame },
    ghost top_fits: { IsPosition top.0 },
}

impl Line<'_> {
    /// The edges of the room that these floats leave to it.
    pub(crate) fn room(&self, floats: &Floats) -> (Unit, Unit)
        ensures room { IsLineRoom self.now.frame self.now.top.0 floats.now result.0.0 result.1.0 }
        ensures left_fits { IsPosition result.0.0 }
        ensures right_fits { IsPosition result.1.0 }
    {
        let frame = &self.frame;
        floats.room(self.top, frame.strut_height(), frame.left, frame.right)
    }
}
