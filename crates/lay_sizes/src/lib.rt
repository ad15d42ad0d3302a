//! The used sizes of one box beside its containing block: margins, borders, paddings, width and height, and the
//! content box as the containing block of what is inside (CSS 2.2, 8.3 to 8.5, 10.1 to 10.7).
//!
//! Contracts cite `IsSized` of `specs/BoxSizes.antt`, whose lengths are those of `specs/UsedLengths.antt`; the sizes of
//! replaced elements are those of `specs/ReplacedBoxes.antt`. It is a relation, and has one value (`specs/Laws.antt`).
//! Formatting contexts size their boxes by it, those of tables and absolutely positioned boxes too; nothing of them is known here. What
//! a formatting context sees of the box of one inside it is an `OwnBox` (`specs/OwnBoxes.antt`).
#![tactic(auto)]

mod laws;
mod own_boxes;
mod replaced;
mod sizing;
mod used_lengths;

pub use laws::{one_box_sizes, sizes_fit};
pub use own_boxes::{NO_OWN_BOX, OwnBox, own_box};
pub use replaced::{NaturalSize, replaced_size_of};
pub use sizing::{
    BoxSizes, ContainingBlock, NO_SIZES, WidthRule, border_width, box_sizes, content_block,
    height_of, max_height_of, min_height_of, widths_beside, with_width,
};
pub use used_lengths::{
    block_of, edge_of, edges_of, or_zero, used_height, used_limit, used_margin, used_max_height,
    used_min_height, used_size, used_vertical_margin, used_width,
};
