//! Padding boxes.

ghost use Rattle.std.specs.Prelude.{◌≡◌, ◌<◌, IfOk, length};
ghost use Rattle.lay_units.specs.Units.{IsNear};
ghost use Rattle.lay_style.specs.LengthValues.{size_of};
ghost use Rattle.lay_sizes.specs.BoxSizes.{border_width};
ghost use Rattle.lay_sizes.specs.SizeBounds.{SizeFits};
ghost use Rattle.lay_sizes.specs.SizeColumns.{HaveSizeBounds, sizes_at};
ghost use Rattle.lay_placements.specs.NearPieces.{IsRectNear};
ghost use Rattle.lay_placements.specs.Standings.{IsStandingNear};
ghost use Rattle.lay_positioned.specs.PaddingBoxes.{borders_of, inside_borders, is_wrapper_at, padding_box};
ghost use Rattle.lay_positioned.specs.RectBounds.{AreUsedSizes};

use crate::layouts::{Layouts, standing_at};
use crate::rects::near_rect;
use lay_abspos::{inside, moved};
use lay_box_tree::{BoxKind, BoxNode, ContextBoxes};
use lay_placements::Standing;
use lay_sizes::{BoxSizes, NO_SIZES, border_width};
use lay_style::{Style, size_of};
use lay_units::{NoMemory, Rect, Sides, Unit};

const NO_BORDERS: Sides = Sides {
    top: Unit(0),
    right: Unit(0),
    bottom: Unit(0),
    left: Unit(0),
};

/// The padding box of the box at k of the formatting context with this number, counted from the corner of that. NoMemory
/// is the answer where an edge is more than 2^60 units away, which it is in no document within the limits.
pub(crate) fn padding_box<L: Layouts>(
    boxes: &ContextBoxes,
    layouts: &L,
    i: usize,
    k: usize,
) -> Result<Rect, NoMemory>
    requires place { k < length boxes.now }
    requires known { i < L.count layouts.now }
    ensures rect { IfOk result (λ r. r ≡ padding_box boxes.now (L.laid layouts.now i) k) }
    ensures near { IfOk result IsRectNear }
{
    let standing = standing_at(layouts.standings(i), k);
    let sizes = sizes_at(layouts.sizes(i), k);
    let borders = borders_of(is_wrapper_at(boxes.as_slice(), k), boxes.style(k));
    inside_borders(standing, &sizes, borders)
}

/// The used sizes of the box at k; none where they aren't known.
fn sizes_at(sizes: &[BoxSizes], k: usize) -> BoxSizes
    requires bounds { HaveSizeBounds sizes.now }
    ensures sizes { result ≡ sizes_at sizes.now k }
    ensures fits { SizeFits result }
{
    match sizes.get(k) {
        Some(sizes) => *sizes,
        None => NO_SIZES,
    }
}

fn is_wrapper_at(boxes: &[BoxNode], k: usize) -> bool
    requires { k < length boxes.now }
    ensures { result ≡ is_wrapper_at boxes.now k }
{
    matches!(boxes[k].kind, BoxKind::Wrapper | BoxKind::InlineWrapper)
}

/// The used widths of borders.
fn borders_of(is_wrapper: bool, style: &Style) -> Sides
    ensures value { result ≡ borders_of is_wrapper style.now }
    ensures sizes { AreUsedSizes result }
{
    if is_wrapper {
        return NO_BORDERS;
    }
    let width = style.border.width;
    Sides {
        top: size_of(width.top),
        right: size_of(width.right),
        bottom: size_of(width.bottom),
        left: size_of(width.left),
    }
}

/// The padding box of a box that stands so, with these sizes and these borders.
fn inside_borders(standing: Standing, sizes: &BoxSizes, borders: Sides) -> Result<Rect, NoMemory>
    requires standing { IsStandingNear standing }
    requires sizes { SizeFits sizes.now }
    requires borders { AreUsedSizes borders }
    ensures rect { IfOk result (λ r. r ≡ inside_borders standing sizes.now borders) }
    ensures near { IfOk result IsRectNear }
{
    let rect = Rect {
        x: moved(standing.corner.x, borders.left),
        y: moved(standing.corner.y, borders.top),
        w: inside(width_of(sizes), borders.left, borders.right),
        h: inside(standing.height, borders.top, borders.bottom),
    };
    near_rect(rect)
}

/// The width of a border box.
fn width_of(sizes: &BoxSizes) -> Unit
    requires { SizeFits sizes.now }
    ensures value { result ≡ record { 0 = border_width sizes.now } }
    ensures near { IsNear result.0 }
{
    border_width(sizes)
}
