//! The content of the lines of a block container, measured: from the segments of its inline content to the stretches that
//! lines take, with the extents, the edges and the floats in them (CSS 2.2, 8.3 to 8.6, 9.4.2, 9.5, 10.8.1, 16.1 and 16.6).
//!
//! Contracts cite `content_in` of `specs/Contents.antt`, which stands on `specs/Stretches.antt` (segments as stretches),
//! `specs/TextParts.antt`, `specs/InlineBoxes.antt`, `specs/AtomicBoxes.antt` and `specs/LineFloats.antt` (what is in them)
//! and on `specs/LineHeights.antt` and `specs/VerticalAlignment.antt` (10.8.1); `areas_of` of `specs/InlineBoxes.antt`, what
//! is painted of texts, inline boxes and atomic boxes; and `has_seen_line` of `specs/SeenLines.antt`, which says of content
//! what its lines come to (`specs/Laws.antt`).
#![tactic(auto)]

mod areas;
mod atomic_boxes;
mod box_measures;
mod container;
mod contents;
mod inline_boxes;
mod laws;
mod line_floats;
mod line_heights;
mod seen_lines;
mod stretches;
mod text_parts;
mod text_stretches;
mod vertical_alignment;

pub use areas::inline_areas;
pub use box_measures::BoxMeasures;
pub use container::Container;
pub use contents::{line_content, line_content_of_items};
pub use laws::{atomic_boxes_are_margin_boxes, heads_of_content_begin_lines, seen_lines_are_seen};
pub use seen_lines::has_seen_line;
