//! Heights of blocks: the `auto` height of a block in flow and of the root of a block formatting
//! context, and the bounds that `min-height` and `max-height` set (CSS 2.2, 10.6.3, 10.6.7 and 10.7).
//!
//! Contracts cite `auto_height_of` and `root_height_of` of `specs/AutoHeights.antt` and
//! `with_min_max_of` of `specs/MinMax.antt`.
#![tactic(auto)]

mod auto_height;
mod min_max;

pub use auto_height::{FlowEnds, auto_height_flow, auto_height_root};
pub use min_max::with_min_max;
