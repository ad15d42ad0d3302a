//! The run document: from the bytes of a JSON text to a run (lay_run), that is a document, a face and the commands of
//! editors, or to the first fault of what the bytes say.
//!
//! `read_run` answers the one reading that the bytes have (`specs/Reading.antt`, `specs/Laws.antt`): they
//! are a JSON text, and its value is a run document (`specs/RunDocument.antt`). What is asked of a field,
//! and which of its faults comes first, is said in `specs/Fields.antt`; then come a file for the face,
//! two for nodes (`specs/NodeForms.antt`, `specs/Nodes.antt`) and three for the commands of editors
//! (`specs/EditCommands.antt`, `specs/Commands.antt`, `specs/Editors.antt`).
//!
//! `read_input` answers the run with the style sheet and what the nodes are called (`specs/SheetNames.antt`), of one reading of
//! the bytes. `read_check` answers these and a report that stands beside the run document (`specs/CheckDocuments.antt`).
//!
//! `read_input` hands the nodes to `serde_json` 64 at a time (`spans`), so that no tree of the whole stands in memory. It does so
//! where the viewport, the face and the sheet stand before the nodes, and nothing is at fault. Else it reads the tree of the whole text.
//!
//! - `styled`: a run document with its style sheet.
#![tactic(auto)]

mod check;
mod check_in;
mod command;
mod edit;
mod editors;
mod face_fields;
mod fault;
mod fields;
mod laws;
mod listing;
mod new_node;
mod node_form;
mod nodes;
mod pulled;
mod reading;
mod run;
mod sheet_in;
mod sheet_names;
mod skipped;
mod spans;
pub mod styled;
mod taken;

pub use check_in::CheckIn;
pub use fault::{Field, InputFault, Spot};
pub use laws::{nodes_are_counted, one_check, one_input, one_reading, runs_read_beside_reports};
pub use reading::{read_check, read_input, read_run};
pub use sheet_in::SheetIn;
pub use spans::{last_names_stay, lists_are_read, objects_are_read};
