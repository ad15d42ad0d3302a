//! Whether a list of edits has a fault.

ghost use Rattle.std.specs.Prelude.{◌≡◌, ◌≢◌, length, None, Err};
ghost use Rattle.lay_history.specs.Edits.Answers.{AnswersFirst};
ghost use Rattle.lay_history.specs.Edits.EditLists.{fault_at};

use crate::edits::applying::{apply_each, check_first};
use crate::edits::batch_fault::BatchFault;
use crate::edits::edits::Edits;
use lay_doc::Doc;
use std::alloc::Global;

/// The answer to a list of edits. One edit alone is tested as it is, which takes no memory; several are applied to a copy.
pub fn check_all(doc: &Doc, alloc: Global, edits: &Edits) -> Result<(), BatchFault>
    ensures answer { AnswersFirst doc.now edits.now result }
    ensures memory { result ≡ Err BatchFault.NoMemory → (length edits.now ≢ 1) × (fault_at doc.now edits.now 0 ≡ None) }
{
    let list = edits.as_slice();
    check_first(doc, list)?;
    if list.len() == 1 {
        return Ok(());
    }
    let mut later = doc.copy(alloc)?;
    apply_each(&mut later, alloc, list)
}
