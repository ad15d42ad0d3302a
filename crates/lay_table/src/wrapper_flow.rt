//! The wrapper of a table as a block formatting context (CSS 2.2, 17.4).

ghost use Rattle.std.specs.Prelude.{◌≡◌, ◌<◌, ◌++◌, length, IfOk, OnOk};
ghost use Rattle.lay_flow.specs.Blocks.FlowBoxes.{KindFits};
ghost use Rattle.lay_flow.specs.Blocks.FlowPlaces.{IsFlowOf};
ghost use Rattle.lay_sizes.specs.OwnBoxes.{OwnBoxFits};
ghost use Rattle.lay_sizes.specs.SizeBounds.{IsInset, SizeFits};
ghost use Rattle.lay_sizes.specs.SizeColumns.{sizes_at};
ghost use Rattle.lay_table.specs.Captions.{ArePlaces, captions_of};
ghost use Rattle.lay_table.specs.PlaceBounds.{AllFit};
ghost use Rattle.lay_table.specs.WrapperFlow.{box_inside, boxes_in_wrapper, caption_inside};
ghost use Rattle.lay_table.specs.WrapperFlow.{captions_inside, places_in_wrapper, table_own_box, wrapper_box};

use crate::captions::Captions;
use crate::cells::{own_box_at, sizes_at, table_sizes};
use crate::row_heights::table_content;
use crate::row_needs::border_height;
use crate::table_input::TableInput;
use crate::tracks::Tracks;
use lay_floats::Clear;
use lay_flow::blocks::{
    Across, BlockBox, FlowBox, FlowBoxes, FlowKind, FlowPlaces, HeightRule, SolidBox, Vertical,
    is_light,
};
use lay_flow::flow;
use lay_sizes::{BoxSizes, OwnBox, own_box};
use lay_units::{NoMemory, Unit, sum_of};
use std::alloc::Global;

/// Where the boxes of the wrapper's context stand. NoMemory is also the answer for more captions than 2^23, which no
/// document within the limits has.
pub(crate) fn wrapper_flow(
    alloc: Global,
    input: &TableInput,
    rows: &Tracks,
    captions: &Captions,
) -> Result<FlowPlaces, NoMemory>
    requires captions { captions.now ≡ captions_of input.now.boxes }
    requires above { ArePlaces (length input.now.boxes) captions.now.above }
    requires below { ArePlaces (length input.now.boxes) captions.now.below }
    ensures flow { IfOk result (IsFlowOf (boxes_in_wrapper input.now rows.now)) }
    ensures count { IfOk result (λ f. length f.boxes ≡ length (places_in_wrapper input.now)) }
{
    let boxes = boxes_in_wrapper(alloc, input, rows, captions)?;
    if !is_light(&boxes) {
        return Err(NoMemory);
    }
    let places = flow(alloc, &FlowBoxes::new(boxes))?;
    Ok(places)
}

/// The boxes of the wrapper's context.
fn boxes_in_wrapper(
    alloc: Global,
    input: &TableInput,
    rows: &Tracks,
    captions: &Captions,
) -> Result<Vec<FlowBox>, NoMemory>
    requires captions { captions.now ≡ captions_of input.now.boxes }
    requires above { ArePlaces (length input.now.boxes) captions.now.above }
    requires below { ArePlaces (length input.now.boxes) captions.now.below }
    ensures boxes { IfOk result (λ v. v.items ≡ boxes_in_wrapper input.now rows.now) }
    ensures fit { IfOk result (λ v. AllFit v.items) }
{
    let wrapper = wrapper_sizes(input);
    let table = table_box(table_sizes(input), rows);
    let mut boxes = Vec::new(alloc);
    boxes.push(wrapper_box(wrapper))?;
    push_captions(&mut boxes, input, &captions.above)?;
    boxes.push(box_inside(wrapper.edges.left, table))?;
    push_captions(&mut boxes, input, &captions.below)?;
    Ok(boxes)
}

/// The used sizes of the wrapper.
pub(crate) fn wrapper_sizes(input: &TableInput) -> BoxSizes
    ensures value { result ≡ sizes_at input.now.sizes 0 }
    ensures fits { SizeFits result }
{
    let _ = input.boxes();
    sizes_at(input.sizes(), 0)
}

/// Adds the captions at these places.
fn push_captions(
    boxes: &mut Vec<FlowBox>,
    input: &TableInput,
    places: &[usize],
) -> Result<(), NoMemory>
    requires places { ArePlaces (length input.now.boxes) places.now }
    requires fit { AllFit boxes.old.items }
    ensures boxes { OnOk result (boxes.new.items ≡ boxes.old.items ++ captions_inside input.now places.now) }
    ensures fit { OnOk result (AllFit boxes.new.items) }
{
    for n in 0..places.len() {
        boxes.push(caption_inside(input, places[n]))?;
    }
    Ok(())
}

/// The caption at k.
fn caption_inside(input: &TableInput, k: usize) -> FlowBox
    requires { k < length input.now.boxes }
    ensures value { result ≡ caption_inside input.now k }
    ensures fits { KindFits result.kind }
{
    let caption = own_box_at(input, k);
    box_inside(wrapper_sizes(input).edges.left, caption)
}

/// The table box, from outside.
fn table_box(table: BoxSizes, rows: &Tracks) -> OwnBox
    requires { SizeFits table }
    ensures value { result ≡ table_own_box table rows.now }
    ensures fits { OwnBoxFits result }
{
    let height = border_height(table, table_content(&table, rows));
    own_box(table, height, None)
}

/// The wrapper.
fn wrapper_box(sizes: BoxSizes) -> FlowBox
    requires { SizeFits sizes }
    ensures value { result ≡ wrapper_box sizes }
    ensures fits { KindFits result.kind }
{
    let left = sizes.edges.left;
    FlowBox {
        parent: 0,
        kind: FlowKind::Block(BlockBox {
            clear: Clear::None,
            x: Unit(0),
            margin: Vertical {
                top: sizes.margin_top,
                bottom: sizes.margin_bottom,
            },
            inset: Vertical {
                top: sizes.edges.top,
                bottom: sizes.edges.bottom,
            },
            content: Across {
                left,
                right: sum_of(left, sizes.widths.width),
            },
            height: HeightRule {
                given: sizes.height,
                min: sizes.min_height,
                max: sizes.max_height,
            },
        }),
    }
}

/// A box in a wrapper whose content begins at `left`.
fn box_inside(left: Unit, own: OwnBox) -> FlowBox
    requires left { IsInset left.0 }
    requires own { OwnBoxFits own }
    ensures value { result ≡ box_inside left own }
    ensures fits { KindFits result.kind }
{
    FlowBox {
        parent: 0,
        kind: FlowKind::Solid(SolidBox {
            clear: Clear::None,
            x: sum_of(left, own.margin.left),
            margin: Vertical {
                top: own.margin.top,
                bottom: own.margin.bottom,
            },
            width: own.width,
            height: own.height,
        }),
    }
}
