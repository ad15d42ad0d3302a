//! The audit of a report.

ghost use Rattle.std.specs.Prelude.{[], IfOk, IfNone, IfSome, List, ℕ};
ghost use Rattle.lay_doc.specs.Document.{Document};
ghost use Rattle.lay_audit.specs.Readings.{IsRead, IsSteady, NoStep, basis_of};
ghost use Rattle.lay_audit.specs.Verdicts.{IsFirstBad, IsVerdict};

use crate::next::Next;
use crate::reading::Reading;
use crate::verdict::Verdict;
use lay_doc::Doc;
use lay_face::Face;
use lay_history::edits::CmdList;
use lay_units::NoMemory;
use std::alloc::Global;
use std::sync::Arc;

/// Whether a text is a legal report of the run of these editors, or the number of the first line with which no legal
/// report begins. Nothing that it says is trusted: the entries are played on a document of the audit's own, and each tree
/// is laid out from scratch.
pub fn audit(
    alloc: Global,
    doc: &Doc,
    face: &Arc<Face>,
    scripts: &[CmdList],
    report: &str,
) -> Result<Verdict, NoMemory>
    ensures { IfOk result (λ v. IsVerdict (record { init = doc.now; face = face.now.value; scripts = scripts.now }) report.now v) }
{
    let mut reading = Reading::new(alloc, doc, scripts, report.as_bytes())?;
    match read_entries(alloc, scripts, face, &mut reading)? {
        Some(number) => Ok(Verdict::No(number)),
        None => reading.read_end(alloc, scripts, face),
    }
}

/// Reads all entries; or there is a first bad line among them.
fn read_entries(
    alloc: Global,
    scripts: &[CmdList],
    face: &Arc<Face>,
    reading: &mut Reading<'_>,
) -> Result<Option<u64>, NoMemory>
    requires { IsSteady scripts.now reading.old }
    ensures bad { IfOk result
        (λ o. IfSome o (λ n. (init : Document) (text : List ℕ) → IsRead (basis_of init face.now.value scripts.now) text reading.old []
        → IsFirstBad (basis_of init face.now.value scripts.now) text n)) }
    ensures read { IfOk result
        (λ o. IfNone o ((init : Document) (text : List ℕ) → IsRead (basis_of init face.now.value scripts.now) text reading.old []
        → IsRead (basis_of init face.now.value scripts.now) text reading.new [] × NoStep scripts.now reading.new)) }
    ensures steady { IfOk result (λ o. IfNone o (IsSteady scripts.now reading.new)) }
{
    loop {
        match reading.read_next(alloc, scripts, face)? {
            Next::Entry => {}
            Next::Bad(number) => return Ok(Some(number)),
            Next::NoEntry => return Ok(None),
        }
    }
}
