//! Absolutely positioned boxes beside what each is given from outside (CSS 2.2, 10.3.7, 10.3.8, 10.4, 10.6.4 and 10.7).
//!
//! - `IsUsedAxis` of `specs/AbsoluteAxis.antt` is the equation of offsets, margins and size along one axis, a relation for both
//!   axes, which has one value for each box (`specs/Laws.antt`).
//! - `AbsoluteSetting` is what a box is given: its containing block and its static position. Beside it stand its used sizes
//!   (`IsAbsoluteSized` of `specs/AbsoluteSizes.antt`, of a table `specs/AbsoluteTables.antt`) and its offset (`IsOffset` of
//!   `specs/Offsets.antt`).
//! - `IsOwnOffset` of `specs/OwnOffsets.antt` says where a formatting context stands by itself: an absolutely positioned one, and
//!   the root's in the viewport (9.4.3).
//!
//! - `relative`: relative positioning (9.4.3), by how much the boxes of a formatting context are moved.
#![tactic(auto)]

mod absolute;
mod axes;
mod axis;
mod following;
mod laws;
mod lengths;
mod offsets;
mod own_offsets;
mod own_place;
mod place_laws;
pub mod relative;
mod root_box;
mod setting;
mod setting_laws;
mod sizes;
mod stand_input;
mod tables;

pub use absolute::solve_absolute;
pub use axis::{Axis, ContentSize};
pub use laws::{one_used_axis, some_used_axis};
pub use lengths::{inside, moved};
pub use offsets::absolute_offset;
pub use own_offsets::own_offset;
pub use own_place::OwnPlace;
pub use place_laws::{one_own_place, some_own_place};
pub use setting::{AbsoluteSetting, block_in};
pub use setting_laws::{
    one_absolute_sizes, one_offset, one_stretched_height, one_table_left, some_absolute_sizes,
    some_offset, some_stretched_height, some_table_left,
};
pub use sizes::{AbsoluteSizes, absolute_sizes, stretched_height};
pub use stand_input::StandInput;
pub use tables::table_left;
