//! The used sizes of boxes.

ghost use Rattle.std.specs.Prelude.{◌≡◌, IfSome};
ghost use Rattle.lay_units.specs.Units.{IsPosition, IsUsedSize, clamp_of, IsSize};
ghost use Rattle.lay_widths.specs.BlockWidths.{IsHeld};
ghost use Rattle.lay_widths.specs.Lengths.{BlockFits, LenIsSize};
ghost use Rattle.lay_sizes.specs.UsedLengths.{block_of, or_zero};
ghost use Rattle.lay_sizes.specs.BoxSizes.{IsSized, IsUsedWidth, border_width, content_block, height_of};
ghost use Rattle.lay_sizes.specs.BoxSizes.{max_height_of, min_height_of, natural_of, widths_beside, with_width};
ghost use Rattle.lay_sizes.specs.SizeBounds.{SizeFits};

use crate::replaced::{NaturalSize, replaced_size_of};
use crate::used_lengths::{
    block_of, definite_height, edges_of, or_zero, used_height, used_max_height, used_min_height,
    used_vertical_margin,
};
use lay_style::Style;
use lay_units::{BlockIn, Len, Sides, Unit, clamp, sum_of};
use lay_widths::{BlockOut, solve_block, solve_float};

/// A containing block (CSS 2.2, 10.1), in 1/64 px. Its height is auto where it depends on what is in it.
#[derive(Clone, Copy, PartialEq, Eq)]
pub struct ContainingBlock {
    pub width: Unit,
    pub height: Len,
}

/// Which rule gives a box its width.
#[derive(Clone, Copy)]
pub enum WidthRule {
    /// A block in flow fills its containing block (CSS 2.2, 10.3.3).
    Fills,
    /// An inline box is as wide as what is in it on each line, `width` doesn't apply, and auto margins are zero
    /// (10.3.1). So is a text.
    Inline,
    /// A float and an inline-block are as wide as their content, whose preferred widths these are in 1/64 px (10.3.5,
    /// 10.3.9).
    ShrinksToFit {
        preferred_minimum: Unit,
        preferred: Unit,
    },
    /// A replaced element that is a block in flow: its width is used as 10.3.2 says, and its margins come of the
    /// equation (10.3.4).
    ReplacedBlock(NaturalSize),
    /// A replaced element that floats or is inline-level. Auto margins are zero (10.3.2, 10.3.6).
    Replaced(NaturalSize),
}

/// What the used sizes of a box are beside its containing block (CSS 2.2, 8.3 to 8.5, 10.3, 10.5 and
/// 10.7), in 1/64 px.
#[derive(Clone, Copy)]
pub struct BoxSizes {
    /// The width of its containing block, which is what percentages are of (16.1).
    pub containing: Unit,
    /// Its left and right margins and its width.
    pub widths: BlockOut,
    /// Its border and its padding on each side together.
    pub edges: Sides,
    pub margin_top: Unit,
    pub margin_bottom: Unit,
    /// Its height, auto where that depends on what is in it, and the bounds of that, of which no `max-height`
    /// is None.
    pub height: Len,
    pub min_height: Unit,
    pub max_height: Option<Unit>,
}

/// No sizes.
pub const NO_SIZES: BoxSizes = BoxSizes {
    containing: Unit(0),
    widths: BlockOut {
        margin_left: Unit(0),
        width: Unit(0),
        margin_right: Unit(0),
    },
    edges: Sides {
        top: Unit(0),
        right: Unit(0),
        bottom: Unit(0),
        left: Unit(0),
    },
    margin_top: Unit(0),
    margin_bottom: Unit(0),
    height: Len::Auto,
    min_height: Unit(0),
    max_height: None,
};

/// The used sizes of a box of this style, whose width comes by this rule.
pub fn box_sizes(containing: ContainingBlock, rule: WidthRule, style: &Style) -> BoxSizes
    requires { IsPosition containing.width.0 }
    ensures sized { IsSized containing rule style.now result }
    ensures fits { SizeFits result }
{
    let width = containing.width;
    let natural = natural_of(rule);
    BoxSizes {
        containing: width,
        widths: used_widths(containing, rule, style),
        edges: edges_of(width, style),
        margin_top: used_vertical_margin(width, style.margin.top),
        margin_bottom: used_vertical_margin(width, style.margin.bottom),
        height: height_of(containing, natural, style),
        min_height: min_height_of(containing, natural, style),
        max_height: max_height_of(containing, natural, style),
    }
}

/// The used margins and width.
fn used_widths(containing: ContainingBlock, rule: WidthRule, style: &Style) -> BlockOut
    requires { IsPosition containing.width.0 }
    ensures { IsUsedWidth containing rule style.now result }
{
    let block = block_of(containing.width, style);
    match rule {
        WidthRule::Fills => solve_block(&block),
        WidthRule::Inline => widths_beside(&block, Unit(0)),
        WidthRule::ShrinksToFit {
            preferred_minimum,
            preferred,
        } => solve_float(&block, preferred_minimum, preferred),
        WidthRule::ReplacedBlock(natural) => {
            let size = replaced_size_of(containing, natural, style);
            solve_block(&with_width(&block, size.width))
        }
        WidthRule::Replaced(natural) => {
            widths_beside(&block, replaced_size_of(containing, natural, style).width)
        }
    }
}

/// A width between margins of which auto ones are zero.
pub fn widths_beside(block: &BlockIn, width: Unit) -> BlockOut
    requires { IsUsedSize width.0 }
    ensures { IsHeld (widths_beside block.now width.0) result }
{
    BlockOut {
        margin_left: margin_or_zero(block.margin_left),
        width,
        margin_right: margin_or_zero(block.margin_right),
    }
}

/// The same block, with this width given and no bounds.
pub fn with_width(block: &BlockIn, width: Unit) -> BlockIn
    requires fits { BlockFits block.now }
    requires width { IsUsedSize width.0 }
    ensures value { result ≡ with_width block.now width }
    ensures fits { BlockFits result }
{
    BlockIn {
        containing_width: block.containing_width,
        margin_left: block.margin_left,
        border_left: block.border_left,
        padding_left: block.padding_left,
        width: Len::Of(width),
        padding_right: block.padding_right,
        border_right: block.border_right,
        margin_right: block.margin_right,
        min_width: Unit(0),
        max_width: None,
    }
}

/// The natural size of a replaced element.
fn natural_of(rule: WidthRule) -> Option<NaturalSize>
    ensures { result ≡ natural_of rule }
{
    match rule {
        WidthRule::ReplacedBlock(natural) | WidthRule::Replaced(natural) => Some(natural),
        WidthRule::Fills | WidthRule::Inline | WidthRule::ShrinksToFit { .. } => None,
    }
}

/// The height, as far as it doesn't depend on what is in the box: of a replaced element the used one.
pub fn height_of(containing: ContainingBlock, natural: Option<NaturalSize>, style: &Style) -> Len
    requires { IsPosition containing.width.0 }
    ensures value { result ≡ height_of containing natural style.now }
    ensures size { LenIsSize result }
{
    match natural {
        None => used_height(containing.height, style.sizing.height),
        Some(natural) => Len::Of(replaced_size_of(containing, natural, style).height),
    }
}

/// The least height that it may have.
pub fn min_height_of(
    containing: ContainingBlock,
    natural: Option<NaturalSize>,
    style: &Style,
) -> Unit
    ensures value { result ≡ min_height_of containing natural style.now }
    ensures size { IsSize result.0 }
{
    match natural {
        None => used_min_height(containing.height, style.sizing.min_height),
        Some(_) => Unit(0),
    }
}

/// The greatest height that it may have, if there is one.
pub fn max_height_of(
    containing: ContainingBlock,
    natural: Option<NaturalSize>,
    style: &Style,
) -> Option<Unit>
    ensures value { result ≡ max_height_of containing natural style.now }
    ensures size { IfSome result (λ v. IsSize v.0) }
{
    match natural {
        None => used_max_height(containing.height, style.sizing.max_height),
        Some(_) => None,
    }
}

fn margin_or_zero(margin: Len) -> Unit
    ensures { result.0 ≡ clamp_of (or_zero margin).0 }
{
    clamp(i128::from(or_zero(margin).0))
}

/// The content box of a box, as the containing block of what is in it.
pub fn content_block(sizes: &BoxSizes) -> ContainingBlock
    ensures { result ≡ content_block sizes.now }
{
    ContainingBlock {
        width: sizes.widths.width,
        height: definite_height(sizes.height, sizes.min_height, sizes.max_height),
    }
}

/// The width of the border box.
pub fn border_width(sizes: &BoxSizes) -> Unit
    requires { SizeFits sizes.now }
    ensures { result ≡ record { 0 = border_width sizes.now } }
{
    sum_of(
        sum_of(sizes.widths.width, sizes.edges.left),
        sizes.edges.right,
    )
}
