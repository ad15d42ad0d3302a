//! A JSON text that is read value by value with `serde_json`, so that no tree of the whole stands in memory.
//!
//! A `Cursor` stands in a text, and its view is the tokens that follow. It passes brackets, keys and commas itself, and hands the
//! text of values to `serde_json::Value`, some at a time. What it answers is what the whole text says at that place
//! (`specs/Spans/Readings.antt`). Wherever it is in doubt it says so, and the whole text is to be read in another way.

mod class;
mod cursor;
mod halt;
mod laws;
mod span;
mod wrapped;

pub use cursor::Cursor;
pub use halt::Halt;
pub use laws::{last_names_stay, lists_are_read, objects_are_read};
pub use wrapped::only;
