//! Whether two tasks of a layout are given the same.
//!
//! Each function is true exactly where its two arguments are equal as contracts see them, over what lay_same says of styles, boxes and
//! sizes. Numbers are told apart first, then boxes, and the face of texts, whose table may be long, at last.

mod input;
mod measured;
mod parts;
mod settings;
mod shared_pieces;
mod sized;
mod table_sizes;
mod widths;

pub use input::same_input;
pub use measured::same_measured_context;
pub use parts::{same_flow_parts, same_measure_parts, same_table_parts};
pub use settings::{same_own_place, same_setting};
pub use sized::{same_size_input, same_sized_context, same_stand_input};
pub use table_sizes::same_table_sizes;
pub use widths::same_widths;
