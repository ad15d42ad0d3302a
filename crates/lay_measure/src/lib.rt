//! Preferred widths: how wide the content of a context would like to be, and how narrow it can be (CSS 2.2, 10.3.5).
//!
//! Contracts cite `preferred_of` of `specs/PreferredWidths.antt`, a function of a context's boxes, of the preferred
//! widths of the contexts inside it and of the face. It stands on `specs/Children.antt` (what children come to),
//! `specs/Contributions.antt` and `specs/ReplacedWidths.antt` (what a box takes), and on `specs/LineParts.antt` and
//! `specs/LineWidths.antt` (lines). `specs/Laws.antt` says what one block alone and floats alone come to,
//! and that no preferred width is below 0.
#![tactic(auto)]

mod children;
mod contributions;
mod inline_widths;
mod laws;
mod line_parts;
mod measure_in;
mod measuring;
mod pen;
mod preferred_widths;
mod replaced_widths;
mod sums;

pub use contributions::{bounded_width, contribution, given_or, limit_of, size_or_zero};
pub use laws::{floats_alone_add_up, lone_block_gives_its_widths, preferred_widths_are_from_zero};
pub use measure_in::MeasureIn;
pub use measuring::measure;
pub use preferred_widths::{NO_WIDTHS, PreferredWidths};
pub use replaced_widths::length_or_auto;
pub use sums::{greater, sum};
