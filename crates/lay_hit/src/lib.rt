//! Hit testing: which piece of a tree is seen at a point, by the order of painting (CSS 2.2, Appendix E and 9.9).
//!
//! Each node is of one kind of painting (`specs/PaintKinds.antt`) and belongs to the nearest node around it that is painted
//! as a whole (`specs/Groups.antt`). `specs/Painting.antt` lists the boxes and texts of a whole tree from back to front,
//! step by step, and `hit` answers the last of them that holds the point (`specs/Hits.antt`). `hit_line` is the line that
//! says so.
//!
//! - `painted`: laws that a solved document is painted once.
#![tactic(auto)]

mod fronts;
mod hit_testing;
mod kinds;
mod laws;
mod line;
mod node_pieces;
mod noted;
pub mod painted;
mod point;
mod question;
mod rank;
mod waiting;

pub use hit_testing::hit;
pub use kinds::{PaintKind, paint_kind};
pub use laws::{
    edges_share_nothing, empty_hold_nothing, one_last_holding, painted_in_order, painting_is_walk,
    paints_each_once, parts_hold_all,
};
pub use line::hit_line;
pub use point::Point;
