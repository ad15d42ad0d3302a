//! Layout of a document: the workings of its formatting contexts, and the tree of which they are the rectangles.
//!
//! `Solves` of `specs/Solves.antt` is the meaning of a layout: one set of equations over the whole document
//! (CSS 2.2, chapters 8 to 10 and 17). A formatting context owes three things: its preferred widths beside those of the
//! ones inside it, the used sizes of its boxes beside these and the setting that the one around gives
//! (`specs/Settings.antt`; both lay_context_sizes), and a placement beside those and the own boxes of
//! the ones inside it (lay_placement, and lay_table of a table). Which of these needs which is the table of
//! `specs/Needs.antt`, and one of them by itself is `specs/Local.antt`. Absolutely positioned boxes
//! come level by level (lay_positioned).
//! `specs/Laws.antt` says that a document has one tree, and `specs/SomeLayouts.antt` that it has one at all, where
//! each block formatting context has a flow.
#![tactic(auto)]

mod assembling;
mod computing;
mod flow_parts;
mod formatted_document;
mod given;
mod input;
mod known;
mod known_context;
mod laid_contexts;
mod laws;
mod layout;
mod measure_parts;
mod measured;
mod medium;
mod nothing_known;
mod own_heights;
mod page_corners;
mod page_standings;
mod placed_context;
mod plan;
mod settings;
mod shared_contents;
mod shared_pieces;
mod table_parts;
mod task;
mod value;
mod values;

pub use assembling::assemble;
pub use computing::{value_of_flow, value_of_measure, value_of_size, value_of_table};
pub use flow_parts::FlowParts;
pub use formatted_document::FormattedDocument;
pub use given::input_of;
pub use input::Input;
pub use laid_contexts::LaidContexts;
pub use laws::{
    absolute_boxes_stand_in_containing_blocks, inputs_come_of_needs, layouts_are_short,
    measured_goes_inward, measured_where_shrunk, measuring_all_changes_no_tree, needs_come_first,
    one_local, one_page_corners, one_solution, some_layout, some_local, some_page_corners,
    some_tree,
};
pub use layout::{last_scratch, scratch, viewport_of};
pub use measure_parts::MeasureParts;
pub use measured::{is_measured, measured_flags};
pub use medium::Medium;
pub use nothing_known::{no_pieces, not_placed, not_sized};
pub use placed_context::PlacedContext;
pub use settings::setting_in;
pub use shared_pieces::SharedPieces;
pub use table_parts::TableParts;
pub use task::{Phase, Task};
pub use value::Value;
pub use values::Values;
