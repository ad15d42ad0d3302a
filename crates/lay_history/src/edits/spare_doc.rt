//! A document and an equal one.

ghost use Rattle.std.specs.Prelude.{◌≡◌, IfErr, IfOk, None};
ghost use Rattle.lay_history.specs.Edits.Answers.{AnswersFirst};
ghost use Rattle.lay_history.specs.Edits.EditLists.{after_all, fault_at, first};

use crate::edits::applying::{apply_each, check_first};
use crate::edits::batch_fault::BatchFault;
use crate::edits::edits::Edits;
use lay_doc::Doc;
use std::alloc::Global;
use std::marker::Model;
use std::mem;

/// A document, beside which there may be an equal one for the next list of edits. Contracts see the document.
#[derive(Drop)]
pub struct SpareDoc {
    doc: Doc,
    spare: Option<Doc>,
}

impl Model for SpareDoc {
    ghost use Rattle.std.specs.Prelude.{◌≡◌, IfSome};
    ghost use Rattle.lay_doc.specs.Document.{Document};

    ghost Value = { Document };

    ghost view = { λ d. d.doc };

    ghost invariant = { λ d. IfSome d.spare (λ s. s ≡ d.doc) };
}

impl SpareDoc {
    /// This document.
    pub fn new(doc: Doc) -> SpareDoc
        ensures { result ≡ doc }
    {
        SpareDoc { doc, spare: None }
    }

    /// The document.
    pub fn doc(&self) -> &Doc
        ensures { result.now ≡ self.now }
    {
        &self.doc
    }

    /// The document after a list of edits. This one stays as it is. Where the first edit has a fault no memory is taken. Where a later one
    /// has, the equal document is lost, and the next list takes a copy.
    pub fn edited(&mut self, alloc: Global, edits: &Edits) -> Result<Doc, BatchFault>
        ensures answer { AnswersFirst self.old edits.now result }
        ensures memory { IfErr result (λ e. e ≡ BatchFault.NoMemory → fault_at self.old edits.now 0 ≡ None) }
        ensures edited { IfOk result (λ d. d ≡ after_all self.old edits.now) }
        ensures same { self.new ≡ self.old }
    {
        let list = edits.as_slice();
        check_first(&self.doc, list)?;
        let mut later = match self.spare.take() {
            Some(spare) => spare,
            None => self.doc.copy(alloc)?,
        };
        apply_each(&mut later, alloc, list)?;
        Ok(later)
    }

    /// Takes the document after a list of edits in its stead.
    pub fn become_edited(&mut self, alloc: Global, edits: &Edits, later: Doc)
        requires no_fault { first self.old edits.now ≡ None }
        requires later { later ≡ after_all self.old edits.now }
        ensures { self.new ≡ later }
    {
        let mut was = mem::replace(&mut self.doc, later);
        self.spare = match apply_each(&mut was, alloc, edits.as_slice()) {
            Ok(()) => Some(was),
            Err(_) => None,
        };
    }
}
