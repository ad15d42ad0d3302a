//! Whether the content of lines is within its bounds.

ghost use Rattle.std.specs.Prelude.{◌≡◌, ◌↔◌, ◌<◌, ◌^◌, pos, IsTrue, All, None, IfSome};
ghost use Rattle.lay_units.specs.Units.{IsUsed};
ghost use Rattle.lay_floats.specs.Within.{IsWithin};
ghost use Rattle.lay_lines.specs.Content.Budgets.{Covers, Leaves, need_of, need_of_stretch};
ghost use Rattle.lay_lines.specs.Content.LineContents.{
  IsLineContent,
  boxes_of,
  content_of,
  ExtentWithin,
  IsTabDistance,
  LineFloatWithin,
  StretchWithin,
  lines_weight,
};

use crate::content::budgets::{Budget, weight_by};
use crate::content::content::{LineFloat, Stretch};
use crate::content::frame::Extent;
use crate::content::nesting::are_nested;
use crate::content::part_bounds::{are_parts_within, is_extent_within};
use lay_units::Unit;

/// What is kept of content that is within its bounds: its weight, and whether it has inline boxes or atomic boxes.
#[derive(Clone, Copy)]
pub struct Summary {
    pub weight: u64,
    pub has_boxes: bool,
}

/// The summary of content that is within its bounds.
pub fn summary_of(strut: Extent, indent: Unit, tab: Unit, stretches: &[Stretch]) -> Option<Summary>
    ensures weight { IfSome result (λ s. s.weight ≡ lines_weight (content_of strut indent tab stretches.now)) }
    ensures boxes { IfSome result (λ s. IsTrue s.has_boxes ↔ 0 < boxes_of stretches.now) }
    ensures fits { IfSome result (λ _. IsLineContent (content_of strut indent tab stretches.now)) }
    ensures none { result ≡ None → IsLineContent (content_of strut indent tab stretches.now) → ⊥ }
{
    if !is_frame_within(strut, indent, tab) || !are_nested(stretches) {
        return None;
    }
    let full = Budget::full();
    let left = left_after(full, tab, stretches)?;
    let weight = weight_by(full.weight - left.weight, full.hulls - left.hulls)?;
    Some(Summary {
        weight,
        has_boxes: left.boxes < full.boxes,
    })
}

/// What these stretches leave, if they are within their bounds.
fn left_after(full: Budget, tab: Unit, stretches: &[Stretch]) -> Option<Budget>
    ensures some { IfSome result (λ left. Leaves (need_of tab.0 stretches.now) full left) }
    ensures within { IfSome result (λ _. All StretchWithin stretches.now) }
    ensures none { result ≡ None → All StretchWithin stretches.now → Covers (need_of tab.0 stretches.now) full → ⊥ }
{
    let mut left = full;
    for k in 0..stretches.len() {
        left = left_after_one(left, tab, &stretches[k])?;
    }
    Some(left)
}

/// What a stretch leaves, if it is within its bounds.
fn left_after_one(left: Budget, tab: Unit, stretch: &Stretch) -> Option<Budget>
    ensures some { IfSome result (λ rest. Leaves (need_of_stretch tab.0 stretch.now) left rest) }
    ensures within { IfSome result (λ _. StretchWithin stretch.now) }
    ensures none { result ≡ None → StretchWithin stretch.now → Covers (need_of_stretch tab.0 stretch.now) left → ⊥ }
{
    if !is_stretch_within(stretch) {
        return None;
    }
    left.after_stretch(tab, stretch)
}

fn is_frame_within(strut: Extent, indent: Unit, tab: Unit) -> bool
    ensures { IsTrue result ↔ ExtentWithin strut × IsUsed indent.0 × IsTabDistance tab.0 }
{
    is_extent_within(strut) && is_used(indent) && is_tab_distance(tab)
}

fn is_used(length: Unit) -> bool
    ensures { IsTrue result ↔ IsUsed length.0 }
{
    -2147483648 <= length.0 && length.0 <= 2147483648
}

fn is_tab_distance(tab: Unit) -> bool
    ensures { IsTrue result ↔ IsTabDistance tab.0 }
{
    0 <= tab.0 && tab.0 <= 35184372088832
}

fn is_stretch_within(stretch: &Stretch) -> bool
    ensures { IsTrue result ↔ StretchWithin stretch.now }
{
    are_floats_within(stretch.heads.as_slice())
        && are_parts_within(stretch.parts.as_slice())
        && are_floats_within(stretch.floats.as_slice())
}

fn are_floats_within(floats: &[LineFloat]) -> bool
    ensures { IsTrue result ↔ All LineFloatWithin floats.now }
{
    for float in floats {
        if !is_float_within(float) {
            return false;
        }
    }
    true
}

fn is_float_within(float: &LineFloat) -> bool
    ensures { IsTrue result ↔ LineFloatWithin float.now }
{
    let req = &float.req;
    is_float_size(req.width)
        && is_float_size(req.height)
        && is_float_edge(req.left)
        && is_float_edge(req.right)
}

fn is_float_size(length: Unit) -> bool
    ensures { IsTrue result ↔ IsWithin (pos (2 ^ 34)) length.0 }
{
    -17179869184 <= length.0 && length.0 <= 17179869184
}

fn is_float_edge(edge: Unit) -> bool
    ensures { IsTrue result ↔ IsWithin (pos (2 ^ 50)) edge.0 }
{
    -1125899906842624 <= edge.0 && edge.0 <= 1125899906842624
}
