//! Pieces and places of one formatting context, as those who lay one out put them together and as those around it take them
//! (CSS 2.2, 9.4): its own box, its pieces, and where the boxes in it stand.
//!
//! A `Placement` (`specs/Placements.antt`) is what the layout of a formatting context answers; a `Standing`
//! (`specs/Standings.antt`) is where a box stands in it. Pieces are numbered by `specs/PieceParts.antt`, and those of an
//! anonymous formatting context, which is of the same element, are put among them where its box stands
//! (`specs/Splicing.antt`).
#![tactic(auto)]

mod containing;
mod context_sizes;
mod corner;
mod inner_pieces;
mod node_counts;
mod own_boxes;
mod piece_list;
mod placements;
mod splicing;
mod standing;

pub use containing::{block_around, block_in, sizes_at};
pub use context_sizes::ContextSizes;
pub use corner::{Corner, near_corner, near_position, near_sum};
pub use inner_pieces::InnerPieces;
pub use node_counts::Counts;
pub use own_boxes::OwnBoxes;
pub use piece_list::PieceList;
pub use placements::Placement;
pub use standing::Standing;
