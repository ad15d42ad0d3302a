//! The core.

ghost use Rattle.std.specs.Prelude.{◌≡◌, ◌≤◌, ◌^◌, IfOk, is_some, length, option_map};
ghost use Rattle.lay_history.specs.Histories.{accepted as accepted_in, is_published};
ghost use Rattle.lay_history.specs.Trees.{tree_at};
ghost use Rattle.lay_core.specs.CoreLaws.ReachedCores.{IsReached};
ghost use Rattle.lay_core.specs.State.{IsCore};
ghost use Rattle.lay_core.specs.Steps.{IsNewCore};

use lay_doc::Doc;
use lay_document_cells::DocumentCells;
use lay_face::Face;
use lay_frag::Tree;
use lay_history::edits::Entry;
use lay_history::{PublishedTree, tree_at};
use lay_units::NoMemory;
use std::alloc::Global;
use std::marker::Model;
use std::sync::Arc;

/// A document that editors change, with the cells of its contexts, its history and the trees of its published versions. A version is
/// the number of edits that were accepted for it; the first is 0, and nothing is published at first.
#[derive(Drop)]
pub struct Core {
    pub(crate) alloc: Global,
    pub(crate) init: Doc,
    pub(crate) cells: DocumentCells,
    pub(crate) history: Vec<Entry>,
    pub(crate) trees: Vec<PublishedTree>,
    pub(crate) accepted: u64,
    pub(crate) calls_left: u32,
}

impl Model for Core {
    ghost use Rattle.std.specs.Prelude.{vec_capacity};
    ghost use Rattle.lay_core.specs.CoreLaws.ReachedCores.{IsReached};
    ghost use Rattle.lay_core.specs.State.{HasNumbers, IsKept, State};

    ghost Value = { State };

    ghost view = { λ c. record {
      init = c.init;
      face = c.cells.face;
      history = c.history.items;
      document = c.cells.document;
      cells = c.cells.cells;
      trees = c.trees.items;
      calls_left = c.calls_left;
      laid = c.cells.laid;
    } };

    ghost invariant = { λ c.
        let s : State = record {
          init = c.init;
          face = c.cells.face;
          history = c.history.items;
          document = c.cells.document;
          cells = c.cells.cells;
          trees = c.trees.items;
          calls_left = c.calls_left;
          laid = c.cells.laid;
        } in
        IsKept s c.accepted (vec_capacity c.history) × HasNumbers s × IsReached s.init s.face s };
}

impl Core {
    /// A core of a document that is laid out in a face, for so many calls of editors. It takes the room for their
    /// entries at once, so that recording never fails. Its cells are made and dirty, and draw a number each.
    pub fn new(alloc: Global, doc: Doc, face: Arc<Face>, calls: u32) -> Result<Core, NoMemory>
        requires { calls ≤ 8192 }
        ensures new { IfOk result (IsNewCore doc face.value calls) }
        ensures draws { IfOk result (λ c. c.cells.draws ≡ length c.cells.rows) }
        ensures few { IfOk result (λ c. c.cells.draws ≤ 2 ^ 18) }
    {
        let init = doc.copy(alloc)?;
        let history = Vec::with_capacity(alloc, 2 * calls as usize + 2)?;
        let cells = DocumentCells::new(alloc, doc, face)?;
        cells.sound();
        Ok(Core {
            alloc,
            init,
            cells,
            history,
            trees: Vec::new(alloc),
            accepted: 0,
            calls_left: calls,
        })
    }

    /// The tree of a version, shared; None exactly where the version isn't published.
    pub fn tree(&self, version: u64) -> Option<&Arc<Tree>>
        ensures value { option_map (λ t. t.now.value) result ≡ tree_at version self.now.trees }
        ensures there { is_some result ≡ is_published self.now.history version }
    {
        tree_at(&self.trees, version)
    }

    /// The trees of all published versions, in their order.
    pub fn trees(&self) -> &[PublishedTree]
        ensures value { result.now ≡ self.now.trees }
        ensures core { IsCore self.now }
    {
        &self.trees
    }

    /// The history. Whatever calls came, each call led on from a core that calls led to, so the laws of `core_laws` hold of this one.
    pub fn history(&self) -> &[Entry]
        ensures value { result.now ≡ self.now.history }
        ensures core { IsCore self.now }
        ensures reached { IsReached self.now.init self.now.face self.now }
    {
        &self.history
    }

    /// The document before any edit.
    pub fn init(&self) -> &Doc
        ensures { result.now ≡ self.now.init }
    {
        &self.init
    }

    /// The document, with all accepted edits.
    pub fn doc(&self) -> &Doc
        ensures { result.now ≡ self.now.document }
    {
        self.cells.doc()
    }

    /// The face that texts are measured in.
    pub fn face(&self) -> &Arc<Face>
        ensures { result.now.value ≡ self.now.face }
    {
        self.cells.face()
    }

    /// How many edits were accepted.
    pub fn accepted(&self) -> u64
        ensures { result ≡ accepted_in self.now.history }
    {
        self.accepted
    }

    /// How many claims of cells were granted so far.
    pub fn laid(&self) -> u64
        ensures { result ≡ self.now.laid }
    {
        self.cells.laid()
    }

    /// How many more calls of editors may come, at most 8,192.
    pub fn calls_left(&self) -> u32
        ensures value { result ≡ self.now.calls_left }
        ensures few { result ≤ 8192 }
    {
        self.calls_left
    }
}
