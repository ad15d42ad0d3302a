//! A document with its cells.

ghost use Rattle.std.specs.Prelude.{◌≡◌, ◌↔◌, ◌+◌, ◌*◌, ◌≤◌, ◌^◌, [], IfErr, IfNone, IfOk, IfSome, IsTrue, None, OnErr, OnOk, length};
ghost use Rattle.std.specs.List.{All};
ghost use Rattle.lay_cells.specs.Looks.{IsGone};
ghost use Rattle.lay_cells.specs.Reads.{AllClean, IsFirstDirtyKey, IsLaid, IsPaid};
ghost use Rattle.lay_cells.specs.Reshapes.{Reshapes};
ghost use Rattle.lay_shape.specs.Keys.{AreOfOwnNodes};
ghost use Rattle.lay_shape.specs.Shapes.{shape_of};
ghost use Rattle.lay_kept_cells.specs.Steps.CellSteps.{no_cells};
ghost use Rattle.lay_context.specs.Solves.{Solves};
ghost use Rattle.lay_history.specs.Edits.Answers.{AnswersFirst};
ghost use Rattle.lay_history.specs.Edits.EditLists.{fault_at};
ghost use Rattle.lay_doc.specs.Laws.{PutsNode};
ghost use Rattle.lay_cells.specs.Progress.Grants.{laid_of_all};
ghost use Rattle.lay_document_cells.specs.Edits.{CellsEditTo};
ghost use Rattle.lay_document_cells.specs.State.{IsNew, IsOfDocument};

use crate::document_table::DocumentTable;
use crate::following::follow_lists;
use crate::laws::{clean_cells_are_counted, trees_list_contexts};
use crate::medium::medium_of;
use crate::since_edits::since_after;
use lay_cell_work::Layout;
use lay_cells::Cells;
use lay_cells::progress::{first_shapes_draw, reshapes_count, reshapes_draw};
use lay_context::Medium;
use lay_doc::{Doc, Edit};
use lay_face::Face;
use lay_frag::Tree;
use lay_history::edits::{BatchFault, Edits, SpareDoc};
use lay_kept_cells::list_steps::lists_keep_cells;
use lay_kept_cells::settled::{Since, edits_begin_since, edits_keep_since};
use lay_kept_cells::steps::{assembled_trees_solve, new_cells_are_sound};
use lay_kept_cells::table::tree_of;
use lay_shape::touched::touched_contexts_are_listed;
use lay_shape::{CellKey, contexts_are_of_own_nodes};
use lay_units::NoMemory;
use std::alloc::Global;
use std::marker::Model;
use std::sync::Arc;

/// A document that is laid out in a face, with its cells: three for each of its contexts. Contracts see the document, the face, the cells
/// and how many claims were granted so far.
#[derive(Drop)]
pub struct DocumentCells {
    pub(crate) alloc: Global,
    doc: SpareDoc,
    face: Arc<Face>,
    pub(crate) medium: Medium,
    pub(crate) table: DocumentTable,
    pub(crate) cells: Cells<Layout>,
    pub(crate) since: Option<Since>,
    pub(crate) laid: u64,
}

impl Model for DocumentCells {
    ghost use Rattle.lay_document_cells.specs.Kept.{IsKeptWith};
    ghost use Rattle.lay_document_cells.specs.State.{State};

    ghost Value = { State };

    ghost view = { λ d. record { document = d.doc; face = d.face.value; cells = d.cells; laid = d.laid } };

    ghost invariant = { λ d.
        IsKeptWith (record { document = d.doc; face = d.face.value; cells = d.cells; laid = d.laid }) d.medium d.table d.since };
}

impl DocumentCells {
    /// A document whose cells are all made anew, and so dirty; so many numbers are drawn as there are cells, at most 2^18.
    pub fn new(alloc: Global, doc: Doc, face: Arc<Face>) -> Result<DocumentCells, NoMemory>
        ensures new { IfOk result (IsNew doc face.value) }
        ensures draws { IfOk result (λ d. d.cells.draws ≡ length d.cells.rows) }
        ensures few { IfOk result (λ d. d.cells.draws ≤ 2 ^ 18) }
    {
        new_cells_are_sound();
        contexts_are_of_own_nodes();
        let _ = doc.nodes();
        let table = DocumentTable::of(alloc, &doc)?;
        let medium = medium_of(&doc, face.clone()?);
        let cells = new_cells(alloc, &table)?;
        cells.sound();
        Ok(DocumentCells {
            alloc,
            doc: SpareDoc::new(doc),
            face,
            medium,
            table,
            cells,
            since: None,
            laid: 0,
        })
    }

    /// Applies a list of edits whole: the cells of contexts that are new are made, those of contexts that are gone are dropped, and
    /// those of touched ones are marked with all that depend on them. On an error all is as before; it is the list's first fault, or that
    /// memory ran out, where the first edit has none.
    pub fn edit(&mut self, edits: &Edits) -> Result<(), BatchFault>
        requires draws { self.old.cells.draws ≤ 2 ^ 63 + 2 ^ 51 }
        ensures answer { AnswersFirst self.old.document edits.now result }
        ensures memory { IfErr result (λ e. e ≡ BatchFault.NoMemory → fault_at self.old.document edits.now 0 ≡ None) }
        ensures ok { OnOk result (CellsEditTo self.old edits.now self.new) }
        ensures few { self.new.cells.draws ≤ self.old.cells.draws + 2 ^ 18 }
        ensures err { OnErr result (self.new ≡ self.old) }
    {
        lists_keep_cells();
        contexts_are_of_own_nodes();
        touched_contexts_are_listed();
        edits_begin_since();
        edits_keep_since();
        put_nodes(edits.as_slice());
        let clean = self.is_settled();
        let draws = self.draws();
        let _ = self.doc.doc().nodes();
        let doc = self.doc.edited(self.alloc, edits)?;
        let later = self.table.edited(self.alloc, self.doc.doc(), edits, &doc)?;
        let made = later.made;
        let medium = medium_of(&doc, shared(&self.face)?);
        let _ = doc.nodes();
        let changed = follow_lists(self.alloc, &mut self.cells, &self.table, &later.table, made)?;
        self.cells.sound();
        self.doc.become_edited(self.alloc, edits, doc);
        self.since = since_after(self.since.take(), clean, draws, changed);
        self.table.become_edited(later.table, later.part);
        self.medium = medium;
        Ok(())
    }

    /// The layout of the document, of which all cells are clean: the tree of what they keep.
    pub fn tree(&self) -> Result<Tree, NoMemory>
        requires { AllClean self.now.cells.rows }
        ensures solves { IfOk result (Solves self.now.document self.now.face) }
        ensures counted { IfOk result (λ t. 3 * length t ≤ self.now.laid) }
    {
        assembled_trees_solve();
        clean_cells_are_counted();
        trees_list_contexts();
        let _ = self.table.cells().contexts().len();
        tree_of(self.alloc, self.table.cells(), &self.cells)
    }

    /// The document, with all edits.
    pub fn doc(&self) -> &Doc
        ensures { result.now ≡ self.now.document }
    {
        self.doc.doc()
    }

    /// The face that texts are measured in.
    pub fn face(&self) -> &Arc<Face>
        ensures { result.now.value ≡ self.now.face }
    {
        &self.face
    }

    /// How many claims were granted so far.
    pub fn laid(&self) -> u64
        ensures { result ≡ self.now.laid }
    {
        self.laid
    }

    /// How many claims of the cell of a key were granted; None where no cell has it.
    pub fn laid_of(&self, key: CellKey) -> Option<u64>
        ensures some { IfSome result (IsLaid self.now.cells.rows key) }
        ensures paid { IfSome result (IsPaid self.now.cells.rows key) }
        ensures none { IfNone result (IsGone self.now.cells.rows key) }
    {
        self.cells.laid(key)
    }

    /// The greatest number that was drawn.
    pub fn draws(&self) -> u64
        ensures { result ≡ self.now.cells.draws }
    {
        self.cells.draws()
    }

    /// The key of the first dirty cell; None where each cell is clean.
    pub fn first_dirty(&self) -> Option<CellKey>
        ensures some { IfSome result (IsFirstDirtyKey self.now.cells.rows) }
        ensures none { IfNone result (AllClean self.now.cells.rows) }
    {
        self.cells.first_dirty()
    }

    /// Whether each cell is clean.
    pub fn is_settled(&self) -> bool
        ensures { IsTrue result ↔ AllClean self.now.cells.rows }
    {
        self.cells.first_dirty().is_none()
    }

    /// What holds of a document with its cells, whatever calls came before.
    pub fn sound(&self)
        ensures { IsOfDocument self.now }
    {
        let _laid = self.laid;
    }
}

/// The face, shared.
fn shared(face: &Arc<Face>) -> Result<Arc<Face>, NoMemory>
    ensures { IfOk result (λ f. f.value ≡ face.now.value) }
{
    Ok(face.clone()?)
}

/// The types of edits say so of all.
fn put_nodes(edits: &[Edit])
    ensures { All PutsNode edits.now }
{
    for edit in edits {
        puts_node(edit);
    }
}

/// The type of an edit says of the node that it puts in that it is what one of its kind may be.
fn puts_node(edit: &Edit)
    ensures { PutsNode edit.now }
{
    if let Edit::Insert { new, .. } = edit {
        let _kind = new.kind();
    }
}

/// The cells of a table, all made anew.
fn new_cells(alloc: Global, table: &DocumentTable) -> Result<Cells<Layout>, NoMemory>
    requires { AreOfOwnNodes table.now.lists.contexts }
    ensures made { IfOk result (Reshapes (no_cells 0) (shape_of table.now.lists.contexts) []) }
    ensures draws { IfOk result (λ c. c.draws ≡ length c.rows) }
    ensures few { IfOk result (λ c. c.draws ≤ 2 ^ 18) }
    ensures none { IfOk result (λ c. laid_of_all c.rows ≤ 0) }
{
    reshapes_count::<Layout>();
    first_shapes_draw::<Layout>();
    reshapes_draw::<Layout>();
    let shape = table.cells().shape(alloc)?;
    shape.shaped();
    let mut cells = Cells::new(alloc);
    cells.reshape(shape, &[])?;
    Ok(cells)
}
