//! Which contexts an edit of a document may touch (CSS 2.2, 6.2, 9.4.1 and 9.6). Laws over documents: their functions do nothing.
//!
//! - An edit reaches the node that it changes, puts in or takes out, and those below it (`specs/Edited/Reached.antt`). What it doesn't
//!   reach it leaves as it is (`specs/Edited/Unreached.antt`), and so the boxes of each context with no reached node among its own
//!   (`specs/Edited/Touched.antt`).
//! - Declarations of an absolute or fixed element count for nothing in the context around, where its anchor stands
//!   (`specs/Edited/Anchors.antt`).
//! - Whether a formatting context's own box or one around it may shrink to fit (10.3.5), and so whether preferred widths count,
//!   changes for contexts of reached elements alone (`specs/Edited/Shrinking.antt`): it is said by the elements of the contexts around, and
//!   by the nodes between, which say where an anonymous table is (17.2.1; `specs/Edited/AnonymousTables.antt`).
//! - Both together are the bound of what an edit may touch (`specs/Edited/Bound.antt`).

mod laws;

pub use laws::{
    anchors_keep_contexts_around, anchors_touch_nothing_around, anonymous_tables_stand_by_nodes,
    edits_touch_no_others, edits_touch_reached_contexts, roots_follow_their_context,
    unreached_contexts_keep_boxes, unreached_contexts_stay_outward, unreached_contexts_stay_within,
    unreached_nodes_stay, within_outward_by_nodes,
};
