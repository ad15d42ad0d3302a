//! Shifts of inline-level boxes by `vertical-align`.

ghost use Rattle.std.specs.Prelude.{◌≡◌, neg_ℤ};
ghost use Rattle.lay_units.specs.Units.{IsUsedSize, floor_div};
ghost use Rattle.lay_line_measures.specs.VerticalAlignment.{alignment_of, box_shift_at, shift_for};

use crate::box_measures::BoxMeasures;
use crate::line_heights::{ascent, descent, font_size, line_height, x_height};
use lay_box_tree::{BoxKind, BoxNode};
use lay_face::Face;
use lay_style::{TextStyle, VerticalAlign};
use lay_units::{Unit, clamp, percent_of};
use lay_valign::Shift;

/// The shift of the box at k in its parent box.
pub(crate) fn shift_at(measures: &BoxMeasures<'_>, k: usize) -> Shift
    ensures { result ≡ box_shift_at measures.now k }
{
    let boxes = measures.boxes();
    let Some(node) = boxes.get(k) else {
        return Shift::By(Unit(0));
    };
    match boxes.get(node.parent as usize) {
        Some(parent) => shift_for(
            measures.face(),
            &parent.style.text,
            &node.style.text,
            alignment_of(node),
        ),
        None => Shift::By(Unit(0)),
    }
}

/// What `vertical-align` says for a box.
fn alignment_of(node: &BoxNode) -> VerticalAlign
    ensures { result ≡ alignment_of node.now }
{
    match node.kind {
        BoxKind::Wrapper | BoxKind::InlineWrapper => VerticalAlign::Baseline,
        _ => node.style.text.vertical_align,
    }
}

/// The shift of a box of the style `own` in a box of the style `parent` (CSS 2.2, 10.8.1).
fn shift_for(face: &Face, parent: &TextStyle, own: &TextStyle, align: VerticalAlign) -> Shift
    ensures { result ≡ shift_for face.now parent.now own.now align }
{
    match align {
        VerticalAlign::Baseline => Shift::By(Unit(0)),
        VerticalAlign::Sub => Shift::By(opposite(fifth_of(font_size(parent)))),
        VerticalAlign::Super => Shift::By(third_of(font_size(parent))),
        VerticalAlign::Length(length) => Shift::By(clamp(i128::from(length.0))),
        VerticalAlign::Percent(percent) => Shift::By(percent_of(percent, line_height(face, own))),
        VerticalAlign::Middle => Shift::Middle(x_height(face, parent)),
        VerticalAlign::TextTop => Shift::TextTop(ascent(face, parent)),
        VerticalAlign::TextBottom => Shift::TextBottom(descent(face, parent)),
        VerticalAlign::Top => Shift::Top,
        VerticalAlign::Bottom => Shift::Bottom,
    }
}

/// The fifth part of a font size, rounded down.
fn fifth_of(size: Unit) -> Unit
    requires { IsUsedSize size.0 }
    ensures value { result.0 ≡ floor_div size.0 5 }
    ensures fits { IsUsedSize result.0 }
{
    Unit(size.0.div_euclid(5))
}

/// The third part.
fn third_of(size: Unit) -> Unit
    requires { IsUsedSize size.0 }
    ensures { result.0 ≡ floor_div size.0 3 }
{
    Unit(size.0.div_euclid(3))
}

fn opposite(length: Unit) -> Unit
    requires { IsUsedSize length.0 }
    ensures { result.0 ≡ neg_ℤ length.0 }
{
    Unit(-length.0)
}
