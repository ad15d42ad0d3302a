//! Whether two used sizes are the same.

ghost use Rattle.std.specs.Prelude.{◌≡◌, ◌↔◌, IsTrue};

use crate::lengths::{same_length, same_length_or_none, same_sides};
use lay_flow::blocks::HeightRule;
use lay_sizes::{BoxSizes, ContainingBlock, OwnBox};
use lay_widths::BlockOut;

/// Whether two containing blocks are the same.
pub fn same_containing_block(a: &ContainingBlock, b: &ContainingBlock) -> bool
    ensures { IsTrue result ↔ (a.now ≡ b.now) }
{
    a.width.0 == b.width.0 && same_length(a.height, b.height)
}

/// Whether two boxes have the same used sizes.
pub fn same_box_sizes(a: &BoxSizes, b: &BoxSizes) -> bool
    ensures { IsTrue result ↔ (a.now ≡ b.now) }
{
    a.containing.0 == b.containing.0
        && same_used_widths(&a.widths, &b.widths)
        && same_sides(&a.edges, &b.edges)
        && a.margin_top.0 == b.margin_top.0
        && a.margin_bottom.0 == b.margin_bottom.0
        && same_length(a.height, b.height)
        && a.min_height.0 == b.min_height.0
        && same_length_or_none(a.max_height, b.max_height)
}

fn same_used_widths(a: &BlockOut, b: &BlockOut) -> bool
    ensures { IsTrue result ↔ (a.now ≡ b.now) }
{
    a.margin_left.0 == b.margin_left.0
        && a.width.0 == b.width.0
        && a.margin_right.0 == b.margin_right.0
}

/// Whether two lists of used sizes are the same.
pub fn same_sizes(a: &[BoxSizes], b: &[BoxSizes]) -> bool
    ensures { IsTrue result ↔ (a.now ≡ b.now) }
{
    if a.len() != b.len() {
        return false;
    }
    for k in 0..a.len() {
        if !same_box_sizes(&a[k], &b[k]) {
            return false;
        }
    }
    true
}

/// Whether the own boxes of two formatting contexts look the same from outside.
pub fn same_own_box(a: &OwnBox, b: &OwnBox) -> bool
    ensures { IsTrue result ↔ (a.now ≡ b.now) }
{
    same_sides(&a.margin, &b.margin)
        && a.width.0 == b.width.0
        && a.height.0 == b.height.0
        && same_length_or_none(a.baseline, b.baseline)
}

/// Whether two lists of own boxes are the same.
pub fn same_own_boxes(a: &[OwnBox], b: &[OwnBox]) -> bool
    ensures { IsTrue result ↔ (a.now ≡ b.now) }
{
    if a.len() != b.len() {
        return false;
    }
    for k in 0..a.len() {
        if !same_own_box(&a[k], &b[k]) {
            return false;
        }
    }
    true
}

/// Whether the same is given of two heights.
pub fn same_height_rule(a: &HeightRule, b: &HeightRule) -> bool
    ensures { IsTrue result ↔ (a.now ≡ b.now) }
{
    same_length(a.given, b.given) && a.min.0 == b.min.0 && same_length_or_none(a.max, b.max)
}
