//! The placement of a formatting context of one box, as an empty float has it: the one that `placing` would make of columns with one
//! entry each, which are left out for speed.

ghost use Rattle.std.specs.Prelude.{◌≡◌, None, length, IfOk};
ghost use Rattle.lay_units.specs.Units.{IsBoxSize};
ghost use Rattle.lay_sizes.specs.OwnBoxes.{OwnBoxFits, own_box};
ghost use Rattle.lay_sizes.specs.SizeBounds.{SizeFits};
ghost use Rattle.lay_sizes.specs.SizeColumns.{sizes_at};
ghost use Rattle.lay_flow_boxes.specs.PlaceInputs.{HeightRuleFits};
ghost use Rattle.lay_placement.specs.ContextPlacements.{IsPlacement};
ghost use Rattle.lay_placement.specs.OneBox.{block_of_height, empty_height, only_piece, only_standing};

use lay_box_tree::BoxNode;
use lay_flow::blocks::{Block, HeightRule, Inside, Near, StandingBlock};
use lay_flow_boxes::PlaceInput;
use lay_frag::{Frag, FragKind, Pieces};
use lay_placements::{Corner, Placement, Standing, sizes_at};
use lay_sizes::{BoxSizes, OwnBox, own_box};
use lay_units::{NoMemory, Rect, Unit};
use std::alloc::Global;
use std::sync::Arc;

/// Where the only box of a formatting context stands, beside its used sizes.
pub(crate) fn placement_of_one(alloc: Global, input: &PlaceInput) -> Result<Placement, NoMemory>
    requires { length input.now.boxes ≡ 1 }
    ensures { IfOk result (IsPlacement input.now) }
{
    let own = only_box(input);
    let standing = only_standing(own.height);
    let piece = only_piece(input.boxes(), own.width, standing);
    let pieces = Arc::new(alloc, Pieces::new(vec![in alloc; piece]?))?;
    Ok(Placement::new(own, pieces, vec![in alloc; standing]?))
}

/// The box, as the formatting context around takes it. It has no line, so it has no baseline of its own.
fn only_box(input: &PlaceInput) -> OwnBox
    requires { length input.now.boxes ≡ 1 }
    ensures value { result
        ≡ own_box (sizes_at input.now.sizes 0) (record { 0 = empty_height (sizes_at input.now.sizes 0) input.now.own_height }) None }
    ensures fits { OwnBoxFits result }
{
    let _ = input.boxes();
    let sizes = sizes_at(input.sizes(), 0);
    own_box(sizes, empty_height(sizes, input.own_height()), None)
}

/// The height of the border box of a block box of these used sizes in which nothing stands, where that is given of its height.
fn empty_height(sizes: BoxSizes, height: HeightRule) -> Unit
    requires sizes { SizeFits sizes }
    requires height { HeightRuleFits height }
    ensures value { result ≡ record { 0 = empty_height sizes height } }
    ensures size { IsBoxSize result.0 }
{
    let block = empty_block(sizes, height);
    let standing = StandingBlock {
        block: &block,
        mark: Unit(0),
        extent: Unit(0),
    };
    let end = Near {
        unit: block.edge_top,
    };
    standing.root_height(end, None)
}

/// Such a box, as margins and heights see it.
fn empty_block(sizes: BoxSizes, height: HeightRule) -> Block
    ensures { result ≡ block_of_height sizes height }
{
    Block {
        margin_top: sizes.margin_top,
        margin_bottom: sizes.margin_bottom,
        edge_top: sizes.edges.top,
        edge_bottom: sizes.edges.bottom,
        height: height.given,
        min_height: height.min,
        max_height: height.max,
        inside: Inside::Blocks,
    }
}

/// Where it stands, for this height: all is counted from its corner.
fn only_standing(height: Unit) -> Standing
    ensures { result ≡ only_standing height }
{
    Standing {
        corner: Corner {
            x: Unit(0),
            y: Unit(0),
        },
        height,
        shift: Unit(0),
    }
}

/// Its border box, where it stands so and is so wide.
fn only_piece(boxes: &[BoxNode], width: Unit, standing: Standing) -> Frag
    requires { length boxes.now ≡ 1 }
    ensures { result ≡ only_piece boxes.now width standing }
{
    Frag {
        kind: FragKind::Box,
        node: boxes[0].node,
        part: 0,
        rect: Rect {
            x: standing.corner.x,
            y: standing.corner.y,
            w: width,
            h: standing.height,
        },
    }
}
