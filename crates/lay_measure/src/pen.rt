//! How wide lines are.

ghost use Rattle.std.specs.Prelude.{◌≡◌, ◌*ℤ◌, IfOk};
ghost use Rattle.lay_units.specs.TabStops.{next_stop};
ghost use Rattle.lay_measure.specs.LineWidths.{begun, ends_line, float_sum, pen_hung, line_width, moved};
ghost use Rattle.lay_measure.specs.LineWidths.{pen_over, pen_after, pen_spaced, pen_reaching, widest_float, width_for};

use crate::line_parts::LinePart;
use crate::preferred_widths::PreferredWidths;
use crate::sums::{greater, sum};
use lay_units::{NoMemory, Unit};

/// Where lines break: wherever they may, or where they have to.
#[derive(Clone, Copy)]
pub enum Breaking {
    WhereAllowed,
    WhereForced,
}

/// How far the content of a line has come, counted from the container's left content edge: where more would begin,
/// where it ends without the spaces at its end, and whether something stands that a space may follow.
#[derive(Clone, Copy)]
pub struct Pen {
    pub at: Unit,
    pub visible: Unit,
    pub started: bool,
}

/// How wide a line of these parts is with its floats, where it begins at `start`.
pub(crate) fn line_width(
    how: Breaking,
    tab: Unit,
    start: Unit,
    parts: &[LinePart],
) -> Result<Unit, NoMemory>
    ensures { IfOk result (λ v. v ≡ record { 0 = line_width how tab.0 start parts.now }) }
{
    let pen = over_all(how, tab, start, parts)?;
    match how {
        Breaking::WhereAllowed => Ok(greater(pen.visible, widest_float(parts))),
        Breaking::WhereForced => sum(pen.visible, float_sum(parts)?),
    }
}

fn over_all(how: Breaking, tab: Unit, start: Unit, parts: &[LinePart]) -> Result<Pen, NoMemory>
    ensures { IfOk result (λ p. p ≡ pen_after how tab.0 (begun start) parts.now) }
{
    let mut pen = Pen {
        at: start,
        visible: start,
        started: false,
    };
    for k in 0..parts.len() {
        pen = pen.over(how, tab, parts[k])?;
    }
    Ok(pen)
}

/// The widest float of a line, by preferred minimum widths.
fn widest_float(parts: &[LinePart]) -> Unit
    ensures { result ≡ record { 0 = widest_float parts.now } }
{
    let mut widest = Unit(0);
    let count = parts.len();
    for done in 0..count {
        if let LinePart::Float(widths) = parts[count - 1 - done] {
            widest = greater(widths.minimum, widest);
        }
    }
    widest
}

/// The floats of a line beside each other.
fn float_sum(parts: &[LinePart]) -> Result<Unit, NoMemory>
    ensures { IfOk result (λ v. v ≡ record { 0 = float_sum parts.now }) }
{
    let mut total = Unit(0);
    for k in 0..parts.len() {
        if let LinePart::Float(widths) = parts[k] {
            total = sum(total, widths.preferred)?;
        }
    }
    Ok(total)
}

/// Whether a line ends at this part.
pub(crate) fn ends_line(how: Breaking, part: LinePart) -> bool
    ensures { result ≡ ends_line how part }
{
    match (how, part) {
        (Breaking::WhereAllowed, LinePart::Break(_)) => true,
        (Breaking::WhereForced, LinePart::Break(forced)) => forced,
        _ => false,
    }
}

fn width_for(how: Breaking, widths: PreferredWidths) -> Unit
    ensures { result ≡ width_for how widths }
{
    match how {
        Breaking::WhereAllowed => widths.minimum,
        Breaking::WhereForced => widths.preferred,
    }
}

impl Pen {
    fn over(self, how: Breaking, tab: Unit, part: LinePart) -> Result<Pen, NoMemory>
        ensures { IfOk result (λ p. p ≡ pen_over how tab.0 self part) }
    {
        match part {
            LinePart::Space(width) => self.spaced(width),
            LinePart::HangingSpace(width) => self.hung(width),
            LinePart::Tab => Ok(Pen::went(next_stop(tab, self.at)?)),
            LinePart::Cluster(width) => Ok(Pen::went(sum(self.at, width)?)),
            LinePart::Atomic(widths) => Ok(Pen::went(sum(self.at, width_for(how, widths))?)),
            LinePart::Edge(width, _) => self.moved(width),
            LinePart::Linefeed | LinePart::Float(_) | LinePart::Break(_) => Ok(self),
        }
    }

    fn spaced(self, width: Unit) -> Result<Pen, NoMemory>
        ensures { IfOk result (λ p. p ≡ pen_spaced self width.0) }
    {
        if !self.started {
            return Ok(self);
        }
        Ok(Pen {
            at: sum(self.at, width)?,
            visible: self.visible,
            started: true,
        })
    }

    fn hung(self, width: Unit) -> Result<Pen, NoMemory>
        ensures { IfOk result (λ p. p ≡ pen_hung self width.0) }
    {
        Ok(Pen {
            at: sum(self.at, width)?,
            visible: self.visible,
            started: true,
        })
    }

    fn went(to: Unit) -> Pen
        ensures { result ≡ pen_reaching to.0 }
    {
        Pen {
            at: to,
            visible: to,
            started: true,
        }
    }

    fn moved(self, width: Unit) -> Result<Pen, NoMemory>
        ensures { IfOk result (λ p. p ≡ moved self width.0) }
    {
        Ok(Pen {
            at: sum(self.at, width)?,
            visible: sum(self.visible, width)?,
            started: self.started,
        })
    }
}

/// The next tab stop.
fn next_stop(tab: Unit, at: Unit) -> Result<Unit, NoMemory>
    ensures { IfOk result (λ v. v ≡ record { 0 = next_stop tab.0 at.0 }) }
{
    if tab.0 <= 0 {
        return Ok(at);
    }
    let stops = sum(Unit(at.0.div_euclid(tab.0)), Unit(1))?;
    product(stops, tab)
}

fn product(a: Unit, b: Unit) -> Result<Unit, NoMemory>
    ensures { IfOk result (λ v. v ≡ record { 0 = a.0 *ℤ b.0 }) }
{
    match a.0.checked_mul(b.0) {
        Some(product) => Ok(Unit(product)),
        None => Err(NoMemory),
    }
}
