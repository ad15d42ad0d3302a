//! The edits of a list, applied to a document.

ghost use Rattle.std.specs.Prelude.{◌≡◌, ◌≤◌, ◌≢◌, length, None, Err, IfErr, OnOk, OnErr};
ghost use Rattle.lay_doc.specs.Edits.{after};
ghost use Rattle.lay_history.specs.Edits.Answers.{AnswersAt, AnswersFirst};
ghost use Rattle.lay_history.specs.Edits.EditLists.{after_all, fault_at};

use crate::edits::batch_fault::BatchFault;
use crate::edits::edits::Edits;
use lay_doc::{Doc, Edit};
use std::alloc::Global;

/// Applies a list of edits whole, or leaves the document as it was. Where the first edit has a fault no memory is taken; one edit alone is
/// then applied as it is, and several to a copy, which takes the document's place once all of them are.
pub fn apply_all(doc: &mut Doc, alloc: Global, edits: &Edits) -> Result<(), BatchFault>
    ensures answer { AnswersFirst doc.old edits.now result }
    ensures memory { IfErr result (λ e. e ≡ BatchFault.NoMemory → fault_at doc.old edits.now 0 ≡ None) }
    ensures ok { OnOk result (doc.new ≡ after_all doc.old edits.now) }
    ensures err { OnErr result (doc.new ≡ doc.old) }
{
    let list = edits.as_slice();
    check_first(doc, list)?;
    if list.len() == 1 {
        doc.apply(alloc, &list[0])?;
        return Ok(());
    }
    let mut later = doc.copy(alloc)?;
    apply_each(&mut later, alloc, list)?;
    *doc = later;
    Ok(())
}

/// The answer to the first edit of a list. It takes no memory.
pub(crate) fn check_first(doc: &Doc, edits: &[Edit]) -> Result<(), BatchFault>
    requires { 1 ≤ length edits.now }
    ensures ok { OnOk result (fault_at doc.now edits.now 0 ≡ None) }
    ensures at { OnErr result (AnswersFirst doc.now edits.now result) }
    ensures memory { result ≢ Err BatchFault.NoMemory }
{
    match doc.check(&edits[0]) {
        Ok(()) => Ok(()),
        Err(fault) => Err(BatchFault::At { place: 0, fault }),
    }
}

/// Applies edits one after the other, up to the first that has a fault. On an error the document is of no use.
pub(crate) fn apply_each(doc: &mut Doc, alloc: Global, edits: &[Edit]) -> Result<(), BatchFault>
    requires { length edits.now ≤ 1024 }
    ensures answer { AnswersFirst doc.old edits.now result }
    ensures ok { OnOk result (doc.new ≡ after_all doc.old edits.now) }
{
    let mut place = 0;
    for edit in edits {
        apply_at(doc, alloc, place, edit)?;
        place += 1;
    }
    Ok(())
}

/// Applies the edit at a place of a list, where it has no fault.
fn apply_at(doc: &mut Doc, alloc: Global, place: u32, edit: &Edit) -> Result<(), BatchFault>
    ensures answer { AnswersAt place doc.old edit.now result }
    ensures ok { OnOk result (doc.new ≡ after doc.old edit.now) }
{
    match doc.check(edit) {
        Ok(()) => Ok(doc.apply(alloc, edit)?),
        Err(fault) => Err(BatchFault::At { place, fault }),
    }
}
