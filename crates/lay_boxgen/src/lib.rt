//! Box generation: from a document and its computed styles to the boxes of a context (CSS 2.2, 9.2 and 9.7), and which
//! nodes are contexts (9.4.1).
//!
//! A node generates a box by its used `display` (`specs/NodeBoxes.antt`), and the boxes of a document's nodes
//! are a tree (`specs/NodeTrees.antt`), to which the rules over the children of a box are put. Contracts cite `boxes_of` of
//! `specs/Listing.antt`, which lists a context's part of the boxes (`specs/Parts.antt`) as one of lay_box_tree,
//! `boxes_at_places` of `specs/ContextWalk.antt`, which does so for many contexts, and `IsContext` of `specs/Contexts.antt`.
//! That the parts of all contexts are the whole is said in `specs/Laws.antt` and `specs/InnerBoxes.antt`, and how many boxes
//! there are at most in `specs/BoxBounds.antt`.
//!
//! Anonymous boxes and broken inline boxes are what stands for a tree of boxes once the rules over the children of a box were used
//! (9.2.1.1, 9.2.2.1, 17.2.1 and 17.4). A box with its children is a tree (`specs/Boxes.antt`), and what the rules see of a box is
//! `Facts`, with the words of the standard for it (`specs/Forms.antt`). Each rule is one definition: irrelevant boxes are removed
//! (`specs/Irrelevant.antt`), missing child wrappers and parents generated (`specs/MissingChildren.antt`, `specs/MissingParents.antt`),
//! table boxes made in their wrappers (`specs/TableWrappers.antt`), inline boxes broken round blocks (`specs/BrokenInlines.antt`) and
//! inline runs beside blocks wrapped (`specs/InlineRuns.antt`). `generated` of `specs/Generation.antt` puts them in order.
#![tactic(auto)]

mod anonymous_style;
mod broken_inlines;
mod context_boxes;
mod context_walk;
mod contexts;
mod display;
mod each_context;
mod facts;
mod forms;
mod generation;
mod inline_runs;
mod irrelevant;
mod laws;
mod listing;
mod missing_children;
mod missing_parents;
mod node_boxes;
mod node_trees;
mod rule_laws;
mod runs;
mod staying;
mod subtree;
mod table_wrappers;
mod white_space;

pub use context_boxes::boxes;
pub use context_walk::boxes_of_contexts;
pub use contexts::is_context;
pub use display::{flow_of, used_display, used_display_of};
pub use each_context::context_flags;
pub use facts::{Facts, Form, TextForm};
pub use forms::{is_absolute, is_anchor, is_column, is_column_group, is_in_flow, is_inline};
pub use generation::generate;
pub use laws::{
    anchors_hold_boxes, boxes_are_a_tree, boxes_are_few, boxes_lead_on, context_is_one_box,
    inner_boxes_are_leaves, kinds_say_forms, parts_are_whole,
};
pub use node_boxes::node_flow;
pub use rule_laws::{inlines_are_broken, runs_are_replaced};
pub use subtree::Subtree;
pub use white_space::is_white;
