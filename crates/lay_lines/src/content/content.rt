//! Content of lines, measured. All lengths are in 1/64 px.

use crate::content::frame::Extent;
use crate::content::lists::{LineFloatList, PartList};
use lay_floats::FloatReq;
use lay_units::Unit;
use lay_valign::Shift;

/// A part of a line's content, with its width. A text, each inline box and each atomic box is named by the number of its box.
#[derive(Clone, Copy)]
pub enum Part {
    /// A collapsible space.
    Space(Advance),
    PreservedSpace(Advance),
    /// A preserved tab, which reaches to the next tab stop, in the text of this number.
    Tab(u32),
    /// A preserved linefeed.
    Linefeed,
    /// Other text.
    Text(Advance),
    Start(InlineStart),
    End(InlineEnd),
    Atomic(AtomicBox),
}

/// Text of some width.
#[derive(Clone, Copy)]
pub struct Advance {
    pub text: u32,
    pub width: Unit,
}

/// The start of an inline box: its left margin, border and padding together.
#[derive(Clone, Copy)]
pub struct InlineStart {
    pub node: u32,
    pub width: Unit,
    /// Its left or a vertical margin, border or padding isn't 0.
    pub seen: bool,
    /// A vertical one isn't.
    pub shows: bool,
    pub extent: Extent,
    pub shift: Shift,
}

/// The end of an inline box: its right margin, border and padding together.
#[derive(Clone, Copy)]
pub struct InlineEnd {
    pub node: u32,
    pub width: Unit,
    /// One of them isn't 0.
    pub seen: bool,
}

/// An atomic inline-level box (CSS 2.2, 9.2.2), with the number of its box.
#[derive(Clone, Copy)]
pub struct AtomicBox {
    pub node: u32,
    /// The width of its margin box.
    pub width: Unit,
    /// How far its margin box reaches above and below its baseline.
    pub extent: Extent,
    pub shift: Shift,
}

/// A float, with the number of its box. It is asked for at the top of the line that meets it, whatever the
/// ceiling of `req` is.
#[derive(Clone, Copy)]
pub struct LineFloat {
    pub node: u32,
    pub req: FloatReq,
}

/// A segment of the content, measured: its parts, the floats before them where it surely begins a line, and
/// the floats in it.
#[derive(Drop)]
pub struct Stretch {
    pub heads: LineFloatList,
    pub parts: PartList,
    pub floats: LineFloatList,
    /// It ends with a preserved linefeed.
    pub forced: bool,
}

/// What is painted of a box on a line, beside its baseline: how far its border box reaches above and below it,
/// and its horizontal margins.
#[derive(Clone, Copy)]
pub struct InlineArea {
    pub above: Unit,
    pub below: Unit,
    pub margin_left: Unit,
    pub margin_right: Unit,
}
