//! How far the content of a line has come.

ghost use Rattle.std.specs.Prelude.{◌≡◌, ◌≤◌, length};
ghost use Rattle.lay_units.specs.Units.{IsPosition};
ghost use Rattle.lay_units.specs.TabStops.{next_stop};
ghost use Rattle.lay_lines.specs.Content.Pens.{blank, went, moved, spaced, hung, over, over_all};
ghost use Rattle.lay_lines.specs.Content.Pens.{past, start_of, pen_to, PenFits, PensFit, ContentFits};

use crate::content::content::{Part, Stretch};
use crate::content::frame::Frame;
use lay_units::{Unit, plus, wide_minus};

/// How far content has come, counted from the container's left content edge: where more would begin, where
/// it ends without the spaces at its end, and where without a collapsible one; whether something stands that
/// a space may follow; and whether something is seen.
#[derive(Clone, Copy)]
pub struct Pen {
    pub at: Unit,
    pub visible: Unit,
    pub solid: Unit,
    pub started: bool,
    pub seen: bool,
}

impl Pen {
    /// After the first stretches of a line, in a room with this left edge, in 1/64 px: how far they come (CSS 2.2, 9.4.2
    /// and 16.6). All places on the way are below 2^62 in absolute value.
    pub fn to(frame: &Frame, edge: Unit, stretches: &[Stretch], count: usize) -> Pen
        requires left { IsPosition frame.now.left.0 }
        requires indent { IsPosition frame.now.indent.0 }
        requires edge { IsPosition edge.0 }
        requires fits { ContentFits frame.now edge.0 stretches.now }
        requires count { count ≤ length stretches.now }
        ensures { result ≡ pen_to frame.now edge.0 stretches.now count }
    {
        let mut pen = Pen::blank(frame, edge);
        for k in 0..count {
            pen = pen.past(frame, &stretches[k]);
        }
        pen
    }

    /// Before the content of a line.
    pub fn blank(frame: &Frame, edge: Unit) -> Pen
        requires left { IsPosition frame.now.left.0 }
        requires edge { IsPosition edge.0 }
        requires fits { PenFits (blank (start_of frame.now edge.0)) }
        ensures { result ≡ blank (start_of frame.now edge.0) }
    {
        let start = start_of(frame, edge);
        Pen {
            at: start,
            visible: start,
            solid: start,
            started: false,
            seen: false,
        }
    }

    /// After one stretch more (CSS 2.2, 16.6). All places on the way are below 2^62 in absolute value.
    pub fn past(self, frame: &Frame, stretch: &Stretch) -> Pen
        requires { PensFit frame.now self stretch.now.parts }
        ensures { result ≡ past frame.now self stretch.now }
    {
        self.over_all(frame, stretch.parts.as_slice())
    }

    fn over_all(self, frame: &Frame, parts: &[Part]) -> Pen
        requires { PensFit frame.now self parts.now }
        ensures { result ≡ over_all frame.now self parts.now }
    {
        let mut pen = self;
        for k in 0..parts.len() {
            pen = pen.over(frame, &parts[k]);
        }
        pen
    }

    /// After one part more.
    pub fn over(self, frame: &Frame, part: &Part) -> Pen
        requires { PenFits (over frame.now self part.now) }
        ensures { result ≡ over frame.now self part.now }
    {
        match part {
            Part::Space(advance) => self.spaced(advance.width),
            Part::PreservedSpace(advance) => self.hung(advance.width),
            Part::Tab(_) => Pen::went(next_stop(frame.tab, self.at)),
            Part::Linefeed => Pen {
                at: self.at,
                visible: self.visible,
                solid: self.solid,
                started: self.started,
                seen: true,
            },
            Part::Text(advance) => Pen::went(plus(self.at, advance.width)),
            Part::Start(start) => self.moved(start.width, start.seen),
            Part::End(end) => self.moved(end.width, end.seen),
            Part::Atomic(atomic) => Pen::went(plus(self.at, atomic.width)),
        }
    }

    fn spaced(self, width: Unit) -> Pen
        requires { PenFits (spaced self width.0) }
        ensures { result ≡ spaced self width.0 }
    {
        if !self.started {
            return self;
        }
        Pen {
            at: plus(self.at, width),
            visible: self.visible,
            solid: self.solid,
            started: true,
            seen: self.seen,
        }
    }

    fn hung(self, width: Unit) -> Pen
        requires { PenFits (hung self width.0) }
        ensures { result ≡ hung self width.0 }
    {
        let to = plus(self.at, width);
        Pen {
            at: to,
            visible: self.visible,
            solid: to,
            started: true,
            seen: true,
        }
    }

    fn went(to: Unit) -> Pen
        ensures { result ≡ went to.0 }
    {
        Pen {
            at: to,
            visible: to,
            solid: to,
            started: true,
            seen: true,
        }
    }

    fn moved(self, width: Unit, seen: bool) -> Pen
        requires { PenFits (moved self width.0 seen) }
        ensures { result ≡ moved self width.0 seen }
    {
        Pen {
            at: plus(self.at, width),
            visible: plus(self.visible, width),
            solid: plus(self.solid, width),
            started: self.started,
            seen: self.seen || seen,
        }
    }
}

fn start_of(frame: &Frame, edge: Unit) -> Unit
    requires left { IsPosition frame.now.left.0 }
    requires edge { IsPosition edge.0 }
    requires start { IsPosition (start_of frame.now edge.0) }
    ensures { result.0 ≡ start_of frame.now edge.0 }
{
    plus(wide_minus(edge, frame.left), frame.indent)
}

fn next_stop(tab: Unit, at: Unit) -> Unit
    requires { IsPosition (next_stop tab.0 at.0) }
    ensures { result.0 ≡ next_stop tab.0 at.0 }
{
    if tab.0 <= 0 {
        return at;
    }
    Unit((at.0.div_euclid(tab.0) + 1) * tab.0)
}
