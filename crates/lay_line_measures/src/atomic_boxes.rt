//! Atomic inline-level boxes.

ghost use Rattle.std.specs.Prelude.{◌≡◌, ◌^◌, pos};
ghost use Rattle.lay_floats.specs.Within.{IsWithin};
ghost use Rattle.lay_sizes.specs.OwnBoxes.{OwnBoxFits};
ghost use Rattle.lay_line_measures.specs.AreaBounds.{AreaNear};
ghost use Rattle.lay_line_measures.specs.AtomicBoxes.{atomic_area, atomic_at, border_extent, margin_extent};

use crate::box_measures::BoxMeasures;
use crate::vertical_alignment::shift_at;
use lay_lines::content::{AtomicBox, Extent, InlineArea};
use lay_sizes::OwnBox;
use lay_units::{Unit, sum_of};

/// The atomic box at a place.
pub(crate) fn atomic_at(measures: &BoxMeasures<'_>, place: u32) -> AtomicBox
    ensures { result ≡ atomic_at measures.now place }
{
    let k = place as usize;
    let own = measures.own_box_at(k);
    AtomicBox {
        node: place,
        width: own.margin_width(),
        extent: margin_extent(&own),
        shift: shift_at(measures, k),
    }
}

/// How far a margin box reaches above and below its baseline.
fn margin_extent(own: &OwnBox) -> Extent
    requires { OwnBoxFits own.now }
    ensures { result ≡ margin_extent own.now }
{
    let border = border_extent(own);
    Extent {
        above: sum_of(own.margin.top, border.above),
        below: sum_of(border.below, own.margin.bottom),
    }
}

/// How far a border box reaches above and below its baseline, or where it has none, its bottom margin edge.
fn border_extent(own: &OwnBox) -> Extent
    requires { OwnBoxFits own.now }
    ensures value { result ≡ border_extent own.now own.now.baseline }
    ensures above { IsWithin (pos (2 ^ 60)) result.above.0 }
    ensures below { IsWithin (pos (2 ^ 60)) result.below.0 }
{
    match own.baseline {
        None => Extent {
            above: Unit(own.height.0 + own.margin.bottom.0),
            below: Unit(-own.margin.bottom.0),
        },
        Some(baseline) => Extent {
            above: baseline,
            below: Unit(own.height.0 - baseline.0),
        },
    }
}

/// The border box, beside its margins.
pub(crate) fn atomic_area(own: &OwnBox) -> InlineArea
    requires { OwnBoxFits own.now }
    ensures value { result ≡ atomic_area own.now }
    ensures near { AreaNear result }
{
    let border = border_extent(own);
    InlineArea {
        above: border.above,
        below: border.below,
        margin_left: own.margin.left,
        margin_right: own.margin.right,
    }
}
