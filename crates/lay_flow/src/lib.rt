//! Block flow: the places of the boxes of one block formatting context, and their lines (CSS 2.2, 8.3.1, 9.4.1, 9.4.2,
//! 9.5, 10.6.3, 10.6.7 and 10.7).
//!
//! `flow` takes the boxes of a context as one value, `FlowBoxes`, and cites `IsFlowOf` of
//! `specs/Blocks/FlowPlaces.antt`. What the code keeps on its way stands in `specs/Pass/`.
//!
//! - `blocks`: what a block flow is. The pass meets its definitions and laws.
#![tactic(auto)]

pub mod blocks;
mod border_boxes;
mod clearance;
mod columns;
mod flow_columns;
mod hypothetical_edge;
mod margin_place;
mod margin_run;
mod margin_steps;
mod marked_boxes;
mod pass;
mod placement;
mod settling;
mod used_strut;

pub use border_boxes::flow;
