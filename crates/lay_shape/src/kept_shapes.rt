//! What an edit does to the cells of a document where it leaves which contexts there are (CSS 2.2, 9.4.1). Contexts that keep their links
//! keep the shape of their cells (law `shapes_stay`); else their nodes and shape are compared. Of touched contexts just those are asked for
//! whose boxes were made anew or changed.

mod kept_boxes;
mod laws;
mod measured_list;
mod touched_keys;

pub use kept_boxes::{are_of_same_nodes, changed_flags};
pub use laws::{restyled_keep_cells, shapes_stay};
pub use measured_list::MeasuredList;
pub use touched_keys::keys_of_touched;
