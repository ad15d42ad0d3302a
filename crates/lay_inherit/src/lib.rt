//! Computed values (CSS 2.2, chapter 6): the computed style of every node of a document.
//!
//! A node's style comes from its declarations and its parent's style, so one pass over the nodes in
//! document order computes all. The contract cites `HasStyles` of lay_style's `specs/ComputedStyle.antt`;
//! that each computed length is within the bounds of used ones is the law `StylesFit` of
//! `specs/StylesFit.antt`.
#![tactic(auto)]

mod cascade;
mod declared;
mod initial;
mod keywords;
mod laws;
mod lengths;
mod own;
mod style;
mod styles;

pub use laws::styles_fit;
pub use styles::{computed, push_style, style_of};
