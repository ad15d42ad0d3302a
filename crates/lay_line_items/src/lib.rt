//! Inline content: what stands in the lines of a block container, from the boxes of its context (CSS 2.2, 9.2.2, 9.4.2,
//! 9.5, 16.4 and 16.6).
//!
//! Contracts cite `items_of` of `specs/InlineItems.antt`, the boxes that stand in the lines in the order of the box tree,
//! and `segments_in` of `specs/InlineSegments.antt`, the same after white space processing, with the widths of texts, cut
//! where lines may break. Lines and preferred widths both take their content from here.
#![tactic(auto)]

mod container_items;
mod container_segments;
mod gathered;
mod inline_contents;
mod inline_starts;
mod laws;
mod leaves;
mod measured;
mod modes;
mod one_text;
mod open_boxes;
mod plain_texts;

pub use container_items::inline_items;
pub use container_segments::{inline_segments, measured_items};
pub use inline_contents::InlineContents;
pub use laws::clusters_begin_at_characters;
pub use modes::mode_of;
