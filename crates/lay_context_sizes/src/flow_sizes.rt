//! The used sizes of boxes in block flow, from outer to inner boxes.

ghost use Rattle.std.specs.Prelude.{◌≡◌, ◌<◌, true, false, length, slice_get, IfOk};
ghost use Rattle.lay_units.specs.Lengths.{no_length};
ghost use Rattle.lay_sizes.specs.SizeBounds.{SizeFits};
ghost use Rattle.lay_sizes.specs.SizeColumns.{HaveSizeBounds, no_sizes, sizes_at};
ghost use Rattle.lay_box_tree.specs.ContextBoxes.{is_inner};
ghost use Rattle.lay_abspos.specs.OffsetBounds.{IsStart};
ghost use Rattle.lay_context_sizes.specs.FlowSizes.{HasFlowSizes, HaveInsideSizes, IsBoxSized, IsOwnSized};
ghost use Rattle.lay_context_sizes.specs.FlowSizes.{floating_rule, inside_rule, own_rule, own_rule_of, rule_in_flow};

use crate::inputs::SizeInput;
use crate::setting::Setting;
use lay_abspos::{AbsoluteSizes, absolute_sizes};
use lay_box_tree::{BoxKind, ContextBoxes, Flow};
use lay_measure::PreferredWidths;
use lay_placements::{ContextSizes, block_around};
use lay_sizes::{BoxSizes, NO_SIZES, NaturalSize, WidthRule, box_sizes};
use lay_table_sizes::cell_sizes;
use lay_units::{NoMemory, Unit};
use std::alloc::Global;

/// The used sizes of boxes in block flow, and how far the left border edge of the own box is from that of its containing
/// block where it is absolutely positioned.
#[derive(Drop)]
pub(crate) struct SizedFlow {
    pub(crate) sizes: ContextSizes,
    pub(crate) left: Unit,
}

/// The used sizes of boxes in block flow.
pub(crate) fn flow_sizes(alloc: Global, input: &SizeInput) -> Result<SizedFlow, NoMemory>
    ensures sizes { IfOk result (λ f. HasFlowSizes input.now f.sizes f.left) }
    ensures left { IfOk result (λ f. IsStart f.left.0) }
{
    let boxes = input.context_boxes();
    let own = own_sizes(input);
    let sizes = sizes_from(alloc, own.sizes, boxes)?;
    let sizes = ContextSizes::new(alloc, sizes)?;
    Ok(SizedFlow {
        sizes,
        left: own.left,
    })
}

/// The used sizes of the own box.
fn own_sizes(input: &SizeInput) -> AbsoluteSizes
    ensures own { IsOwnSized input.now.setting input.now.measured.widths input.now.boxes result.sizes result.left }
    ensures fits { SizeFits result.sizes }
    ensures left { IsStart result.left.0 }
{
    let boxes = input.context_boxes();
    let widths = input.measured().widths();
    match input.setting() {
        Setting::Block(containing) => {
            in_flow(box_sizes(containing, own_rule_of(widths, boxes), boxes.style(0)))
        }
        Setting::Cell { containing, cell } => in_flow(cell_sizes(containing, cell, boxes.style(0))),
        Setting::Absolute(setting) => {
            absolute_sizes(&setting, input.own(), widths.minimum, widths.preferred)
        }
    }
}

/// These sizes of a box of which the one around says where it stands.
fn in_flow(sizes: BoxSizes) -> AbsoluteSizes
    requires { SizeFits sizes }
    ensures sizes { result.sizes ≡ sizes }
    ensures left { result.left ≡ no_length }
    ensures near { IsStart result.left.0 }
{
    AbsoluteSizes {
        sizes,
        left: Unit(0),
    }
}

/// The used sizes of these boxes, of which the own one has these.
fn sizes_from(alloc: Global, own: BoxSizes, boxes: &ContextBoxes) -> Result<Vec<BoxSizes>, NoMemory>
    requires own { SizeFits own }
    ensures own { IfOk result (λ v. sizes_at v.items 0 ≡ own) }
    ensures inside { IfOk result (λ v. HaveInsideSizes boxes.now v.items) }
    ensures bounds { IfOk result (λ v. HaveSizeBounds v.items) }
{
    let count = boxes.as_slice().len();
    let mut sizes = Vec::with_capacity(alloc, count)?;
    sizes.push(own)?;
    for k in 1..count {
        let inside = inside_sizes(boxes, &sizes, k);
        sizes.push(inside)?;
    }
    Ok(sizes)
}

/// The used sizes of the box at k inside, where the sizes of those before it are known.
fn inside_sizes(boxes: &ContextBoxes, sizes: &[BoxSizes], k: usize) -> BoxSizes
    requires inside { 0 < k }
    requires place { k < length boxes.now }
    requires known { length sizes.now ≡ k }
    requires bounds { HaveSizeBounds sizes.now }
    ensures each { is_inner boxes.now k ≡ false → IsBoxSized boxes.now sizes.now k result }
    ensures inner { is_inner boxes.now k ≡ true → result ≡ no_sizes }
    ensures fits { SizeFits result }
{
    let _ = boxes.as_slice();
    if boxes.is_inner(k) {
        return NO_SIZES;
    }
    let containing = block_around(boxes, sizes, k);
    box_sizes(containing, inside_rule(boxes, k), boxes.style(k))
}

/// Which rule gives the box at k inside its width.
fn inside_rule(boxes: &ContextBoxes, k: usize) -> WidthRule
    requires { k < length boxes.now }
    ensures { result ≡ inside_rule boxes.now k }
{
    if boxes.role(k).is_inline_level() {
        return WidthRule::Inline;
    }
    WidthRule::Fills
}

/// Which rule gives the own box its width, where these are its preferred widths.
fn own_rule_of(widths: PreferredWidths, boxes: &ContextBoxes) -> WidthRule
    ensures { result ≡ own_rule_of widths (slice_get boxes.now 0) }
{
    match boxes.as_slice().get(0) {
        Some(node) => own_rule(widths, node.flow, &node.kind),
        None => WidthRule::Fills,
    }
}

fn own_rule(widths: PreferredWidths, flow: Flow, kind: &BoxKind) -> WidthRule
    ensures { result ≡ own_rule widths flow kind.now }
{
    match flow {
        Flow::Floating => floating_rule(widths, kind),
        Flow::InFlow | Flow::Absolute => rule_in_flow(widths, kind),
    }
}

fn rule_in_flow(widths: PreferredWidths, kind: &BoxKind) -> WidthRule
    ensures { result ≡ rule_in_flow widths kind.now }
{
    match kind {
        BoxKind::InlineBlock => shrinks_to_fit(widths),
        BoxKind::Replaced { w, h, inline: true } => WidthRule::Replaced(natural_size(*w, *h)),
        BoxKind::Replaced {
            w,
            h,
            inline: false,
        } => { WidthRule::ReplacedBlock(natural_size(*w, *h)) }
        _ => WidthRule::Fills,
    }
}

fn floating_rule(widths: PreferredWidths, kind: &BoxKind) -> WidthRule
    ensures { result ≡ floating_rule widths kind.now }
{
    match kind {
        BoxKind::Replaced { w, h, .. } => WidthRule::Replaced(natural_size(*w, *h)),
        _ => shrinks_to_fit(widths),
    }
}

fn shrinks_to_fit(widths: PreferredWidths) -> WidthRule
    ensures { result ≡ WidthRule.ShrinksToFit widths.minimum widths.preferred }
{
    WidthRule::ShrinksToFit {
        preferred_minimum: widths.minimum,
        preferred: widths.preferred,
    }
}

fn natural_size(width: Unit, height: Unit) -> NaturalSize
    ensures { result ≡ record { width = width; height = height } }
{
    NaturalSize { width, height }
}
