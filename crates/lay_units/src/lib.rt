//! Lengths and the small records that all crates share.
//!
//! A length or a position is a whole number of 1/64 px, a percentage a whole number of hundredths of
//! a percent. The rounding of both, and the bounds of a used value, are the definitions of
//! `specs/Units.antt` (CSS 2.2, 4.3.2 and 4.3.3). The length that counts for none, and whether a number is 0, is
//! `specs/Lengths.antt`, and where the next tab stop is, `specs/TabStops.antt` (16.6).
#![tactic(auto)]

mod length;
mod limits;
mod memory;
mod records;
mod sums;
mod text;
mod unit_list;

pub use length::{Percent, Unit, clamp, clamp_size, half, is_nonzero, percent_of};
pub use limits::{LONGEST_TEXT, MOST_DEPTH, MOST_NODES, MOST_TEXT};
pub use memory::NoMemory;
pub use records::{AbsOut, BlockIn, ClusterWidth, Len, Rect, Sides, WidthList};
pub use sums::{plus, sum_of, wide_minus};
pub use text::Text;
pub use unit_list::UnitList;
