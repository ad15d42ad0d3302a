//! The preferred widths and the used sizes of one formatting context.
//!
//! Its preferred widths come of its boxes and of those of the ones inside it (CSS 2.2, 10.3.5 and 17.5.2,
//! `specs/ContextWidths.antt`). The used sizes of its boxes stand beside its preferred widths and the setting of its own box
//! (`src/setting.rt`): its containing block (10.1), what a table gives a cell, or what is around an absolutely positioned
//! box (`specs/ContextSizes.antt`; in block flow `specs/FlowSizes.antt`).
#![tactic(auto)]

mod flow_sizes;
mod inputs;
mod laws;
mod measured_context;
mod measuring;
mod setting;
mod shrink_to_fit;
mod sized_context;
mod sizing;
mod table_contexts;

pub use inputs::{MeasureInput, SizeInput};
pub use laws::{
    one_context_sizes, one_context_widths, some_context_sizes, some_context_widths,
    widths_count_where_shrunk,
};
pub use measured_context::MeasuredContext;
pub use measuring::context_widths;
pub use setting::Setting;
pub use shrink_to_fit::shrinks_to_fit;
pub use sized_context::SizedContext;
pub use sizing::context_sizes;
