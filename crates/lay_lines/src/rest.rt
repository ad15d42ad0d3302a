//! The content that lines are still to take.

ghost use Rattle.std.specs.Prelude.{◌≡◌, ◌≤◌, length, drop};
ghost use Rattle.lay_lines.specs.Rows.{next_frame};

use crate::content::{Frame, Stretch};
use crate::row::Ended;
use lay_units::Unit;

/// Content that is left, whether content has inline boxes or atomic boxes at all, and the frame and the highest top
/// of the line that begins with it.
#[derive(Clone, Copy)]
pub struct Rest<'a> {
    pub frame: Frame,
    pub top: Unit,
    pub stretches: &'a [Stretch],
    pub has_boxes: bool,
}

impl<'a> Rest<'a> {
    /// What is left after a line.
    pub(crate) fn behind(self, ended: &Ended) -> Rest<'a>
        requires { ended.now.reach.count ≤ length self.stretches.now }
        ensures frame { result.frame ≡ next_frame self.entry.frame ended.now.seen }
        ensures top { result.top ≡ ended.now.to }
        ensures stretches { result.stretches.now ≡ drop ended.now.reach.count self.entry.stretches.now }
        ensures has_boxes { result.has_boxes ≡ self.entry.has_boxes }
    {
        Rest {
            frame: next_frame(&self.frame, ended.seen),
            top: ended.to,
            stretches: &self.stretches[ended.reach.count..],
            has_boxes: self.has_boxes,
        }
    }
}

/// The frame of the next line: once a line was seen, none is indented (CSS 2.2, 16.1).
pub fn next_frame(frame: &Frame, seen: bool) -> Frame
    ensures { result ≡ next_frame frame.now seen }
{
    Frame {
        left: frame.left,
        right: frame.right,
        strut: frame.strut,
        indent: if seen { Unit(0) } else { frame.indent },
        tab: frame.tab,
    }
}
