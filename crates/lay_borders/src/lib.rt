//! Collapsed borders of a table (CSS 2.2, 17.6.2): which of the borders that meet at an edge of the
//! grid is drawn (17.6.2.1), at one edge and at several, and how wide.
//!
//! Contracts cite `IsWinner` of `specs/Winner.antt`, `IsEdge` and `AreResolved` of
//! `specs/Edges.antt`, and `edge_width` of `specs/Halves.antt`. The rules of a conflict are one order,
//! and an edge has one border, or none (`specs/Laws.antt`).
#![tactic(auto)]

mod candidate;
mod conflict;
mod edges;
mod halves;
mod laws;
mod lists;

pub use candidate::{BorderStyle, Cand, Origin};
pub use conflict::winner;
pub use edges::{EdgeGrid, GridBorders, edge_border, resolve};
pub use halves::edge_width;
pub use laws::{borders_are_ordered, one_border_each, one_winner};
pub use lists::{CandList, CandLists, CandOptions};
