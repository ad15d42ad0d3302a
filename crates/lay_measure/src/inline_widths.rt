//! The preferred widths of lines.

ghost use Rattle.std.specs.Prelude.{◌≡◌, ◌<◌, ◌≤◌, ◌+◌, length, [], IfOk};
ghost use Rattle.std.specs.List.{list_any};
ghost use Rattle.lay_measure.specs.WidestLine.{widest_with};
ghost use Rattle.lay_measure.specs.LineWidths.{first_start, indent_length, inline_widths, is_seen, lines_of, parts_widths, tab_of, widest};

use crate::line_parts::{LinePart, line_parts};
use crate::measure_in::MeasureIn;
use crate::pen::{Breaking, ends_line, line_width};
use crate::preferred_widths::PreferredWidths;
use crate::sums::greater;
use lay_face::Face;
use lay_space::Segment;
use lay_style::{LengthPercentage, TextStyle};
use lay_units::{NoMemory, Unit, clamp, clamp_size};
use std::alloc::Global;

/// The preferred widths of a container of this style that has these segments.
pub(crate) fn inline_widths(
    alloc: Global,
    of: &MeasureIn<'_>,
    style: &TextStyle,
    segments: &[Segment],
) -> Result<PreferredWidths, NoMemory>
    ensures { IfOk result (λ w. w ≡ inline_widths of.now style.now segments.now) }
{
    let parts = line_parts(alloc, of, segments)?;
    parts_widths(of.face(), style, parts.as_slice())
}

fn parts_widths(
    face: &Face,
    style: &TextStyle,
    parts: &[LinePart],
) -> Result<PreferredWidths, NoMemory>
    ensures { IfOk result (λ w. w ≡ parts_widths face.now style.now parts.now) }
{
    let tab = tab_of(face, style)?;
    let start = first_start(style, parts);
    Ok(PreferredWidths {
        minimum: widest(Breaking::WhereAllowed, tab, start, parts)?,
        preferred: widest(Breaking::WhereForced, tab, start, parts)?,
    })
}

/// The width of the widest line of these parts.
fn widest(how: Breaking, tab: Unit, start: Unit, parts: &[LinePart]) -> Result<Unit, NoMemory>
    ensures { IfOk result (λ v. v ≡ record { 0 = widest how tab.0 start (lines_of how [] parts.now) }) }
{
    let mut lines = Lines {
        from: 0,
        start,
        widest: Unit(0),
    };
    for k in 0..parts.len() {
        lines = lines.past(how, tab, parts, k)?;
    }
    let last = line_width(how, tab, lines.start, &parts[lines.from..parts.len()])?;
    Ok(greater(lines.widest, greater(last, Unit(0))))
}

/// Where a line begins among the parts, and across; and the widest line before it.
#[derive(Clone, Copy)]
pub struct Lines {
    pub from: usize,
    pub start: Unit,
    pub widest: Unit,
}

impl Lines {
    /// After the part at k.
    fn past(self, how: Breaking, tab: Unit, parts: &[LinePart], k: usize) -> Result<Lines, NoMemory>
        requires begun { self.from ≤ k }
        requires inside { k < length parts.now }
        ensures total { IfOk result (λ l. widest_with how tab.0 parts.now l (k + 1) ≡ widest_with how tab.0 parts.now self k) }
        ensures begun { IfOk result (λ l. l.from ≤ k + 1) }
    {
        if !ends_line(how, parts[k]) {
            return Ok(self);
        }
        let width = line_width(how, tab, self.start, &parts[self.from..k])?;
        Ok(Lines {
            from: k + 1,
            start: Unit(0),
            widest: greater(self.widest, width),
        })
    }
}

/// Where the first line begins.
fn first_start(style: &TextStyle, parts: &[LinePart]) -> Unit
    ensures { result ≡ first_start style.now parts.now }
{
    if is_any_seen(parts) {
        indent_of(style.text_indent)
    } else {
        Unit(0)
    }
}

fn is_any_seen(parts: &[LinePart]) -> bool
    ensures { result ≡ list_any is_seen parts.now }
{
    parts.iter().any(|part| is_seen(*part))
}

fn is_seen(part: LinePart) -> bool
    ensures { result ≡ is_seen part }
{
    match part {
        LinePart::Space(_) | LinePart::Float(_) | LinePart::Break(_) => false,
        LinePart::Edge(_, seen) => seen,
        LinePart::HangingSpace(_)
        | LinePart::Tab
        | LinePart::Linefeed
        | LinePart::Cluster(_)
        | LinePart::Atomic(_) => true,
    }
}

/// `text-indent`, of which a percentage is 0.
fn indent_of(indent: LengthPercentage) -> Unit
    ensures { result ≡ indent_length indent }
{
    match indent {
        LengthPercentage::Length(length) => clamp(i128::from(length.0)),
        LengthPercentage::Percent(_) => Unit(0),
    }
}

/// How far apart tab stops are.
fn tab_of(face: &Face, style: &TextStyle) -> Result<Unit, NoMemory>
    ensures { IfOk result (λ v. v ≡ record { 0 = tab_of face.now style.now }) }
{
    let size = clamp_size(i128::from(style.font_size.0));
    face.fits_at(size);
    let space = face.advance(' ', size);
    match space.0.checked_mul(8) {
        Some(tab) => Ok(Unit(tab)),
        None => Err(NoMemory),
    }
}
