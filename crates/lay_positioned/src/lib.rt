//! What absolutely positioned boxes are given from outside (CSS 2.2, 9.6 and 10.1), over the formatting contexts of a document,
//! each known by its number.
//!
//! `IsSetting` of `specs/Settings.antt` says it: the containing block and the static position, which come of the formatting
//! contexts on the way out to the one that has the containing block (`specs/Ways.antt`). The containing block is the padding box
//! of the nearest holder (`specs/Holders.antt`, `specs/ContainingRects.antt`). Each has one value (`specs/Laws.antt`).
#![tactic(auto)]

mod absolute;
mod containing_rects;
mod holders;
mod laws;
mod layouts;
mod level_column;
mod padding_boxes;
mod rects;
mod settings;

pub use absolute::{is_absolute, is_fixed, is_own_absolute, is_own_fixed};
pub use holders::holder_for;
pub use laws::{
    one_containing_rect, one_holder, one_level_count, one_levels, one_nearest_holder,
    settings_are_values, settings_come_of_ways, ways_lead_down, ways_lead_out,
};
pub use layouts::Layouts;
pub use level_column::{level_count, levels, one_if};
pub use settings::setting;
