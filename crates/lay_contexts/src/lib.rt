//! Which contexts and formatting contexts a document has (CSS 2.2, 9.4.1), as lists of values: each has its boxes, and knows
//! the one around it and those inside it by their numbers in the list.
//!
//! - Laws of the boxes that generation makes, in other words than its definitions (`specs/NodeTreeLaws.antt`,
//!   `specs/WhiteSpaceLaws.antt`, `specs/FlowLaws.antt`, `specs/LevelLaws.antt`).
//! - The tree of contexts: each but the root's stands once, in the nearest one above it (`specs/ContextTree.antt`).
//!   `AreDocumentContexts` of `specs/DocumentContexts.antt` is the list of a document's contexts in document order, the only
//!   one, and the boxes of a context depend on its own nodes alone (`specs/OwnNodes.antt`).
//! - That list as the code makes it: `AreContextsOf` of `specs/ContextList.antt`.
//! - Formatting contexts: the contexts, and beside them those of the anonymous tables and cells in them (17.2.1), by
//!   `AreFormattingContextsOf` of `specs/FormattingContextList.antt`.
//!
//! - `edited`: laws of which contexts an edit of a document may touch.
#![tactic(auto)]

mod box_laws;
mod context_list;
mod context_places;
mod context_spot;
mod contexts;
pub mod edited;
mod formatting_context;
mod formatting_context_list;
mod formatting_laws;
mod homes;
mod later_boxes;
mod laws;
mod numbers;
mod parting;
mod ranks;
mod root_boxes;
mod roots;
mod spot;
mod standing;
mod tree_laws;

pub use box_laws::{
    boxes_hold_one_level, boxes_without_elements_are_in_flow, children_stand_in_order,
    inner_boxes_keep_flow, own_boxes_keep_flow, white_space_goes_by_itself,
};
pub use context_list::contexts_of;
pub use context_spot::ContextSpot;
pub use contexts::{Context, Contexts};
pub use formatting_context::{FormattingContext, FormattingContexts};
pub use formatting_context_list::formatting_contexts;
pub use formatting_laws::{
    anchors_stand_for_absolute_boxes, boxes_stand_at_home, elements_are_contexts,
    formatting_contexts_stand_in_order, inner_numbers_lead_back, one_formatting_context_list,
    one_home, roots_stand_first, whole_contexts_keep_boxes,
};
pub use later_boxes::{LaterBoxes, later_formatting_contexts};
pub use laws::{
    anonymous_boxes_are_in_flow, contexts_are_noted_around, contexts_keep_flow_around,
    one_context_list,
};
pub use tree_laws::{
    contexts_stand_in_order, contexts_stand_once, one_list_of_contexts, own_nodes_decide,
};
