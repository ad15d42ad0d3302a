//! Pictures of reports: from the words of a command line and the bytes of a report to an SVG document.
//!
//! `specs/Lines.antt` says how a line of a report is written, `specs/Reports.antt` which lines stand where and which
//! pieces are shown, `specs/Changes.antt` what two trees differ in, `specs/Hits.antt` which piece is marked,
//! `specs/Picture.antt` the picture of pieces, with lengths in px written exactly (`specs/Pixels.antt`) and labels that don't
//! overlap (`specs/Labels.antt`), and `specs/Answers.antt` which text answers which words and bytes.
#![tactic(auto)]

mod answer;
mod call;
mod changes;
mod fields;
mod frame;
mod hit;
mod input;
mod label;
mod laws;
mod line;
mod mark;
mod numbers;
mod picture;
mod pixels;
mod places;
mod reading;
mod state;
mod style;
mod words;

pub use call::{Ending, draw, usage};
pub use changes::nothing_differs;
pub use frame::frames_hold;
pub use label::{labels_are_apart, labels_are_in_boxes};
pub use laws::scratch_reports_show;
pub use pixels::fractions_are_exact;
