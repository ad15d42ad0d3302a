//! What a run document says: a document before any edit, the face that its texts are measured in, the scripts of its
//! editors, and the ids of its nodes in the order in which it lists them.
//!
//! A run is `Run` of `specs/Runs.antt`. Its scripts are within limits together (`specs/Scripts.antt`): at most 16 scripts,
//! 8,192 commands and 256 commands that read. lay_json reads bytes as a run.
//!
//! - `gathered`: documents of nodes that are listed one after the other.
#![tactic(auto)]

pub mod gathered;
mod node_list;
mod run_doc;
mod script_list;

pub use node_list::NodeList;
pub use run_doc::RunDoc;
pub use script_list::{ScriptList, is_read};
