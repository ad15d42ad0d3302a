//! What a block flow is: the boxes of one block formatting context, and where they stand (CSS 2.2, 8.3.1, 9.4.1, 9.4.2,
//! 9.5, 10.6.3, 10.6.7 and 10.7).
//!
//! `IsFlowOf` of `specs/Blocks/FlowPlaces.antt` says what the places of the boxes are: the border boxes of a flow
//! (`specs/Blocks/ContextFlow.antt`). That has a layout of its blocks (`specs/Blocks/BlockLayout.antt`), with runs of adjoining margins
//! (`specs/Blocks/MarginRuns.antt`), positions and heights (`specs/Blocks/BlockPositions.antt`), floats and boxes that they may not
//! overlap, with lines beside floats (`specs/Blocks/BlockFloats.antt`), and clearance (`specs/Blocks/Clearance.antt`), each as a column
//! of a value per box in document order. The laws in `specs/Blocks/Laws.antt` say that a context has a flow, and one alone, and
//! so its blocks a layout. `flow` computes it.

mod block;
mod block_height;
mod box_lines;
mod boxes;
mod flow_box;
mod flow_places;
mod laws;
mod margin_collapse;
mod met_floats;
mod near;
mod shape;
mod weights;

pub use block::{Block, Inside};
pub use block_height::StandingBlock;
pub use boxes::{BoxAt, Boxes, ChildAt};
pub use flow_box::{
    Across, BlockBox, FloatBox, FlowBox, FlowBoxes, FlowKind, HeightRule, LinesBox, SolidBox,
    Vertical,
};
pub use flow_places::{BoxPlace, FlowPlaces};
pub use laws::{
    adjoining_runs, collapsed_through, one_block_layout, one_context_flow, one_flow_of,
    one_hypothetical, one_test, some_block_layout, some_context_flow, some_flow_by_clearances,
    some_flow_of, some_hypothetical,
};
pub use met_floats::line_corners;
pub use near::Near;
pub use shape::Shape;
pub use weights::is_light;
