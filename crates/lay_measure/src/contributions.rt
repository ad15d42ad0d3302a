//! What a box takes of the preferred widths of what is around it.

ghost use Rattle.std.specs.Prelude.{◌≡◌, IfOk};
ghost use Rattle.lay_measure.specs.Contributions.{around_border, bounded_width, given_or, left_edges, limit_of};
ghost use Rattle.lay_measure.specs.Contributions.{margin_box, margin_or_zero, right_edges, size_or_zero};
ghost use Rattle.lay_measure.specs.LineParts.{contribution, contribution_at};
ghost use Rattle.lay_style.specs.LengthValues.{size_of};

use crate::measure_in::MeasureIn;
use crate::preferred_widths::{NO_WIDTHS, PreferredWidths};
use crate::replaced_widths::replaced_width;
use crate::sums::sum_of_three;
use lay_box_tree::{BoxKind, BoxNode};
use lay_heights::with_min_max;
use lay_style::{LengthPercentage, LengthPercentageOrAuto, LengthPercentageOrNone, Style, size_of};
use lay_units::{NoMemory, Unit, clamp};

/// What the atomic box or the float at a place takes.
pub(crate) fn contribution_at(of: &MeasureIn<'_>, place: u32) -> Result<PreferredWidths, NoMemory>
    ensures { IfOk result (λ w. w ≡ contribution_at of.now place) }
{
    let k = place as usize;
    match of.boxes().get(k) {
        Some(node) => contribution(node, of.inner_at(k)),
        None => Ok(NO_WIDTHS),
    }
}

/// What a box with these preferred widths takes of those around it, in 1/64 px. NoMemory is also the answer where that isn't within 2^63
/// units of 0, as no width of a document within its limits is.
pub fn contribution(node: &BoxNode, own: PreferredWidths) -> Result<PreferredWidths, NoMemory>
    ensures { IfOk result (λ w. w ≡ contribution node.now own) }
{
    let style = &node.style;
    match &node.kind {
        BoxKind::Replaced { w, h, .. } => {
            let width = margin_box(style, replaced_width(*w, *h, style))?;
            Ok(PreferredWidths {
                minimum: width,
                preferred: width,
            })
        }
        BoxKind::Wrapper | BoxKind::InlineWrapper => Ok(PreferredWidths {
            minimum: around_border(style, own.minimum)?,
            preferred: around_border(style, own.preferred)?,
        }),
        _ => Ok(PreferredWidths {
            minimum: margin_box(style, bounded_width(style, own.minimum))?,
            preferred: margin_box(style, bounded_width(style, own.preferred))?,
        }),
    }
}

/// The width of the margin box around a content box of this width.
fn margin_box(style: &Style, width: Unit) -> Result<Unit, NoMemory>
    ensures { IfOk result (λ v. v ≡ margin_box style.now width.0) }
{
    let left = left_edges(style)?;
    let right = right_edges(style)?;
    sum_of_three(left, width, right)
}

/// The width of the margin box around a border box of this width.
fn around_border(style: &Style, width: Unit) -> Result<Unit, NoMemory>
    ensures { IfOk result (λ v. v ≡ around_border style.now width) }
{
    sum_of_three(
        margin_or_zero(style.margin.left),
        width,
        margin_or_zero(style.margin.right),
    )
}

/// The margin, the border and the padding of the left side.
pub(crate) fn left_edges(style: &Style) -> Result<Unit, NoMemory>
    ensures { IfOk result (λ v. v ≡ record { 0 = left_edges style.now }) }
{
    sum_of_three(
        margin_or_zero(style.margin.left),
        size_of(style.border.width.left),
        size_or_zero(style.padding.left),
    )
}

/// Those of the right side.
pub(crate) fn right_edges(style: &Style) -> Result<Unit, NoMemory>
    ensures { IfOk result (λ v. v ≡ record { 0 = right_edges style.now }) }
{
    sum_of_three(
        margin_or_zero(style.margin.right),
        size_of(style.border.width.right),
        size_or_zero(style.padding.right),
    )
}

/// The width of a box with this content, or its `width` where that is a length, between its bounds.
pub fn bounded_width(style: &Style, content: Unit) -> Unit
    ensures { result.0 ≡ bounded_width style.now content }
{
    let width = given_or(style.sizing.width, content);
    let least = size_or_zero(style.sizing.min_width);
    let most = limit_of(style.sizing.max_width);
    with_min_max(width, least, most)
}

/// A `width` that is a length, in place of the content's width.
pub fn given_or(width: LengthPercentageOrAuto, content: Unit) -> Unit
    ensures { result ≡ given_or width content }
{
    match width {
        LengthPercentageOrAuto::Length(length) => size_of(length),
        LengthPercentageOrAuto::Auto | LengthPercentageOrAuto::Percent(_) => content,
    }
}

/// A padding or a `min-width`, of which a percentage is 0.
pub fn size_or_zero(size: LengthPercentage) -> Unit
    ensures { result ≡ size_or_zero size }
{
    match size {
        LengthPercentage::Length(length) => size_of(length),
        LengthPercentage::Percent(_) => Unit(0),
    }
}

/// A margin, which is 0 where it is `auto` or a percentage.
pub(crate) fn margin_or_zero(margin: LengthPercentageOrAuto) -> Unit
    ensures { result ≡ margin_or_zero margin }
{
    match margin {
        LengthPercentageOrAuto::Length(length) => clamp(i128::from(length.0)),
        LengthPercentageOrAuto::Auto | LengthPercentageOrAuto::Percent(_) => Unit(0),
    }
}

/// A `max-width`, of which a percentage is none.
pub fn limit_of(limit: LengthPercentageOrNone) -> Option<Unit>
    ensures { result ≡ limit_of limit }
{
    match limit {
        LengthPercentageOrNone::Length(length) => Some(size_of(length)),
        LengthPercentageOrNone::None | LengthPercentageOrNone::Percent(_) => None,
    }
}
