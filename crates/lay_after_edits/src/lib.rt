//! What a document's styles and contexts are after an edit or a list of edits, from those before it (CSS 2.2, 6.1.2, 6.2 and 9.4.1).
//!
//! - `styles`: the computed styles after an edit. They are made anew for the nodes that it reaches, and taken over for all others.
//! - `contexts`: the contexts after an edit or a list of edits, with their boxes. Those of contexts that it doesn't reach are shared.
#![tactic(auto)]

pub mod contexts;
pub mod styles;
