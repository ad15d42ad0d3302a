//! The boxes of one formatting context as its block flow takes them (CSS 2.2, 9.2.1, 9.4.1, 9.4.2, 9.5 and 10.3.3), beside
//! the used sizes of its boxes and the own boxes of the formatting contexts inside it.
//!
//! `flow_shape` answers by `IsFlowShape` of `specs/FlowShapes.antt`. It stands on `specs/InlineContainers.antt` (which boxes
//! hold lines alone) and `specs/ContextBlocks.antt` (blocks, lines, solid boxes and floats). There is such a shape, and one
//! alone (`specs/Laws.antt`). `specs/LineItems.antt` says that the boxes in lines are the items of these, each once, and
//! `specs/OneLevel.antt` that preferred widths agree with the flow on which boxes hold lines.
//!
//! - `words`: laws of words, lines and preferred widths.
#![tactic(auto)]

mod asked_contents;
mod box_columns;
mod context_blocks;
mod context_shapes;
mod inline_containers;
mod laws;
mod line_boxes;
mod place_input;
mod shape;
pub mod words;

pub use asked_contents::{Asked, contents_of, is_any_asked};
pub use box_columns::own_box_at;
pub use context_shapes::is_anchor;
pub use laws::{
    boxes_in_lines_are_items, items_are_boxes_in_lines, one_flow_shape, some_flow_shape,
    widths_agree_on_lines,
};
pub use place_input::{PlaceInput, height_rule_of, own_sizes};
pub use shape::{FlowShape, flow_shape};
