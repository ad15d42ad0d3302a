//! The content of lines, measured: what a line is made of, how far its content comes, and how high it is (CSS 2.2, 9.4.2,
//! 10.8, 10.8.1, 16.1 and 16.6). The modules around this one make lines of it beside floats.
//!
//! Contracts cite `LineContentValue` of `specs/Content/LineContents.antt`, the content of a container with its bounds,
//! `specs/Content/Pens.antt` (how far content comes) and `specs/Content/Extents.antt` (the parts of which lay_valign makes the shape of a
//! line, and the inline boxes that are open after it).

mod bounds;
mod budgets;
mod content;
mod extents;
mod frame;
mod line_content;
mod line_parts;
mod lists;
mod nesting;
mod part_bounds;
mod pen;

pub use content::{
    Advance, AtomicBox, InlineArea, InlineEnd, InlineStart, LineFloat, Part, Stretch,
};
pub use extents::{any_shows, line_shape};
pub use frame::{Extent, Frame};
pub use line_content::LineContent;
pub use lists::{LineFloatList, PartList, StretchList};
pub use pen::Pen;
