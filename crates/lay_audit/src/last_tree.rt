//! The tree that was published last.

ghost use Rattle.std.specs.Prelude.{◌≡◌, IfOk};
ghost use Rattle.lay_audit.specs.Readings.{IsLayoutOf};
ghost use Rattle.lay_audit.specs.WholeLines.{IsOfLines};

use lay_context::scratch;
use lay_doc::Doc;
use lay_face::Face;
use lay_frag::text_of;
use lay_units::{NoMemory, Text};
use std::alloc::Global;
use std::marker::Model;
use std::sync::Arc;

/// The lines of the tree of the version that was published last, and the number of its contexts.
#[derive(Drop)]
pub(crate) struct LastTree {
    text: Text,
    contexts: usize,
}

impl Model for LastTree {
    ghost use Rattle.lay_audit.specs.Readings.{LastTreeValue};
    ghost use Rattle.lay_audit.specs.WholeLines.{IsOfLines};

    ghost Value = { LastTreeValue };

    ghost view = { λ t. record { text = t.text; contexts = t.contexts } };

    ghost invariant = { λ t. IsOfLines t.text };
}

impl LastTree {
    /// No version is published.
    pub(crate) fn none(alloc: Global) -> LastTree {
        LastTree {
            text: Text::new(String::new(alloc)),
            contexts: 0,
        }
    }

    /// The layout of a document.
    pub(crate) fn of(alloc: Global, doc: &Doc, face: &Arc<Face>) -> Result<LastTree, NoMemory>
        ensures { IfOk result (IsLayoutOf doc.now face.now.value) }
    {
        let _ = doc.nodes();
        let tree = scratch(alloc, doc, face)?;
        let text = text_of(alloc, &tree)?;
        Ok(LastTree {
            text,
            contexts: tree.contexts().len(),
        })
    }

    /// Its lines.
    pub(crate) fn text(&self) -> &[u8]
        ensures value { result.now ≡ self.now.text }
        ensures lines { IsOfLines self.now.text }
    {
        self.text.as_str().as_bytes()
    }

    /// The number of its contexts.
    pub(crate) fn contexts(&self) -> usize
        ensures { result ≡ self.now.contexts }
    {
        self.contexts
    }
}
