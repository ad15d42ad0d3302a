//! Whether styles, boxes, their sizes and grids of tables are the same.
//!
//! Each function is true exactly where its two arguments are equal as contracts see them. What is shared is seen by its contents, so two
//! values that were made apart are the same where their data are. Numbers are told apart first, and styles at last.
#![tactic(auto)]

mod boxes;
mod edges;
mod grid;
mod keywords;
mod lengths;
mod sizes;
mod style;
mod style_lengths;

pub use boxes::{same_boxes, same_kind};
pub use grid::same_grid;
pub use lengths::{same_length_or_none, same_rect, same_sides};
pub use sizes::{
    same_box_sizes, same_containing_block, same_height_rule, same_own_boxes, same_sizes,
};
pub use style::same_style;
