//! The list of a context's boxes (CSS 2.2, 9.2), which box generation makes and layout takes: a tree in document order,
//! in which the boxes of inner contexts and anchors are leaves (`specs/BoxColumns.antt`).
//!
//! Contracts cite `role_at` and `clear_at` of `specs/Roles.antt`, which say what a box is in the formatting context that
//! it stands in (9.2 to 9.6) and which sides it clears (9.5.2), and `IsContainer` of `specs/Containers.antt`, the nearest
//! block container of a box (10.1). What a box's kind says of it alone is in `specs/Kinds.antt`. `AreInlineParts` of
//! `specs/InlineParts.antt` says which box is the first and which the last part of an inline box that blocks broke (9.2.1.1).
//! `ContextBoxes` keeps the boxes with the container of each, shared by whoever is given them (`specs/ContextBoxes.antt`).
#![tactic(auto)]

mod box_role;
mod box_tree;
mod container_laws;
mod containers;
mod context_boxes;
mod inline_part;
mod kinds;
mod laws;
mod part_laws;

pub use box_role::Role;
pub use box_tree::{BoxKind, BoxNode, BoxTree, Flow};
pub use container_laws::containers_are_nearest;
pub use containers::box_parent;
pub use context_boxes::ContextBoxes;
pub use inline_part::{InlinePart, id_at, inline_parts, is_inline_at, put_latest};
pub use kinds::{is_caption, is_cell, is_wrapper};
pub use laws::{containers_are_a_tree, one_container};
pub use part_laws::ends_are_one;
