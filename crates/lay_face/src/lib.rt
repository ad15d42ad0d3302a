//! Faces: what characters and lines measure in a font, in thousandths of the font size (CSS 2.2, 10.8
//! and 16.4 leave the metrics of fonts to the user agent).
//!
//! Contracts cite `face_of`, `entry_of` and `thousandths_of` of `specs/Faces.antt`, and `widths_of` of
//! `specs/Clusters.antt`. That a later advance of a code point wins is a law about them
//! (`specs/Laws.antt`).
#![tactic(auto)]

mod clusters;
mod face;
mod laws;
mod metrics;
mod pairs;
mod table;

pub use clusters::{Setting, is_plain, put_width};
pub use face::Face;
pub use laws::last_pair_wins;
pub use metrics::FaceMetrics;
pub use pairs::{AdvancePair, PairList};
