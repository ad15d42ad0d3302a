//! Lists of edits, which a document takes whole or not at all, and the commands of editors that hold them.
//!
//! The first fault of a list, with its place, and the document after a list that has none are said in `specs/Edits/EditLists.antt`,
//! over the edits of lay_doc; `specs/Edits/Laws.antt` says what follows. `apply_all` takes a list whole or leaves the document as it
//! was; `check_all` says which of both it would be. `SpareDoc` does so without a copy for each list: a second document is kept in step.
//! Commands, the replies to them and the entries of a history are types alone: `specs/Histories.antt` says which histories are right.

mod applying;
mod batch_fault;
mod checking;
mod command;
mod edits;
mod history;
mod laws;
mod spare_doc;

pub use applying::apply_all;
pub use batch_fault::BatchFault;
pub use checking::check_all;
pub use command::{Cmd, CmdList, Reply};
pub use edits::{Edits, MOST_EDITS};
pub use history::Entry;
pub use laws::{first_is_within, lists_leave_documents, one_edit_alone, one_first, two_lists};
pub use spare_doc::SpareDoc;
