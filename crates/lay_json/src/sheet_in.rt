//! The style sheet of a run document.

use lay_cascade::node_names::NamesList;
use lay_units::Text;

/// The text of a run's style sheet, where it has one, and what its nodes are called, in the order of the list `nodes`.
/// Without a sheet no names are read.
#[derive(Drop)]
pub struct SheetIn {
    pub sheet: Option<Text>,
    pub names: NamesList,
}
