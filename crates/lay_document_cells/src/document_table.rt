//! The contexts of a document, with its styles.

ghost use Rattle.std.specs.Prelude.{◌≡◌, ◌+◌, IfOk, IfSome, IsTrue, None, OnOk, length};
ghost use Rattle.std.specs.List.{All};
ghost use Rattle.std.specs.Arc.{arc_value};
ghost use Rattle.lay_style.specs.ComputedStyle.{HasStyles};
ghost use Rattle.lay_doc.specs.Document.{declarations_of, parents_of};
ghost use Rattle.lay_doc.specs.Edits.{after, fault};
ghost use Rattle.lay_history.specs.Edits.EditLists.{after_all, first};
ghost use Rattle.lay_shape.specs.Touched.ContextFlags.{AreContextFlags};
ghost use Rattle.lay_contexts.specs.FormattingContextList.{AreFormattingContextsOf};
ghost use Rattle.lay_after_edits.specs.Contexts.Changed.{AreMadeAnew, AreStaying};
ghost use Rattle.lay_after_edits.specs.Contexts.Anchored.{IsStyleEdit};
ghost use Rattle.lay_after_edits.specs.Contexts.Links.{AreRestyled};
ghost use Rattle.lay_after_edits.specs.Styles.WrittenOver.{AreSameOutside};
ghost use Rattle.lay_document_cells.specs.TextEdits.{IsTextEdit};
ghost use Rattle.lay_document_cells.specs.State.{AreStyledLists};

use lay_after_edits::contexts::{
    DocPair, EditedDoc, LaterContexts, RestyledNodes, changed_nodes, contexts_after,
    contexts_after_all, restyled_nodes,
};
use lay_after_edits::styles::{Part, follow_part, restyled, write_over};
use lay_contexts::{Contexts, contexts_of};
use lay_doc::{Doc, Edit};
use lay_history::edits::Edits;
use lay_inherit::computed;
use lay_kept_cells::table::CellTable;
use lay_shape::kept_shapes::MeasuredList;
use lay_shape::touched::MeasuredContexts;
use lay_style::{Computed, Style};
use lay_units::NoMemory;
use std::alloc::Global;
use std::marker::Model;
use std::mem;
use std::sync::Arc;

/// The computed styles of a document, its contexts with the places of their cells, and of each context whether its preferred widths count.
/// Beside the styles there may be equal ones, which the next edit of declarations writes over.
#[derive(Drop)]
pub(crate) struct DocumentTable {
    styles: Arc<Computed>,
    spare: Option<Vec<Style>>,
    cells: CellTable,
    measured: Vec<bool>,
}

impl Model for DocumentTable {
    ghost use Rattle.std.specs.Prelude.{◌≡◌, IfSome};
    ghost use Rattle.lay_shape.specs.Touched.ContextFlags.{AreContextFlags};
    ghost use Rattle.lay_document_cells.specs.Kept.{TableValue};

    ghost Value = { TableValue };

    ghost view = { λ t. record { styles = t.styles.value; lists = t.cells } };

    ghost invariant = { λ t.
        (AreContextFlags t.cells.contexts t.cells.formatting_contexts t.measured.items) × (IfSome t.spare (λ s. s.items ≡ t.styles.value)) };
}

impl DocumentTable {
    /// That of a document.
    pub(crate) fn of(alloc: Global, doc: &Doc) -> Result<DocumentTable, NoMemory>
        ensures { IfOk result (λ t. AreStyledLists doc.now t.styles t.lists) }
    {
        let styles = Arc::new(alloc, computed(alloc, doc)?)?;
        DocumentTable::of_styles(alloc, doc, styles)
    }

    /// That of a document after a list of edits, where this is the one before it, and stays so.
    pub(crate) fn edited(
        &mut self,
        alloc: Global,
        doc: &Doc,
        edits: &Edits,
        later: &Doc,
    ) -> Result<EditedTable, NoMemory>
        requires are { AreStyledLists doc.now self.old.styles self.old.lists }
        requires accepted { first doc.now edits.now ≡ None }
        requires later { later.now ≡ after_all doc.now edits.now }
        ensures lists { IfOk result (λ t. AreStyledLists later.now t.table.styles t.table.lists) }
        ensures made { IfOk result (λ t. IfSome t.made (λ v. AreRestyled self.old.lists.contexts t.table.lists.contexts v.items)) }
        ensures part { IfOk result (λ t. IfSome t.part (AreSameOutside self.old.styles t.table.styles)) }
        ensures same { self.new ≡ self.old }
    {
        let list = edits.as_slice();
        if list.len() == 1 {
            return self.edited_once(alloc, doc, &list[0], later);
        }
        if let Some(styled) = self.styles_of(alloc, doc, list, later)? {
            return self.edited_nodes(alloc, doc, later, styled);
        }
        let table = DocumentTable::of(alloc, later)?;
        Ok(EditedTable {
            table,
            made: None,
            part: None,
        })
    }

    /// The computed styles after edits of declarations and texts, and for each node whether the node or its style changed. They are shared
    /// where just texts change. None where the edits do anything else.
    fn styles_of(
        &self,
        alloc: Global,
        doc: &Doc,
        edits: &[Edit],
        later: &Doc,
    ) -> Result<Option<StyledNodes>, NoMemory>
        requires styles { HasStyles (parents_of doc.now.nodes) (declarations_of doc.now.nodes) self.now.styles }
        requires later { later.now ≡ after_all doc.now edits.now }
        ensures styles { IfOk result
            (λ o. IfSome o (λ s. HasStyles (parents_of later.now.nodes) (declarations_of later.now.nodes) (arc_value s.styles))) }
        ensures made { IfOk result
            (λ o. IfSome o (λ s. AreMadeAnew doc.now.nodes later.now.nodes self.now.styles (arc_value s.styles) s.made.items)) }
    {
        let Some(changed) = changed_nodes(alloc, doc, edits)? else {
            return Ok(None);
        };
        if are_texts(edits) {
            let styles = self.styles.clone()?;
            return Ok(Some(StyledNodes {
                styles,
                made: changed,
            }));
        }
        let RestyledNodes { styles, made } = restyled_nodes(
            alloc,
            doc,
            &self.styles,
            later,
            &changed,
        )?;
        let styles = Arc::new(alloc, styles)?;
        Ok(Some(StyledNodes { styles, made }))
    }

    /// The table of a later document with these styles, where all nodes without a flag kept theirs.
    fn edited_nodes(
        &self,
        alloc: Global,
        doc: &Doc,
        later: &Doc,
        styled: StyledNodes,
    ) -> Result<EditedTable, NoMemory>
        requires are { AreStyledLists doc.now self.now.styles self.now.lists }
        requires styles { HasStyles (parents_of later.now.nodes) (declarations_of later.now.nodes) (arc_value styled.styles) }
        requires made { AreMadeAnew doc.now.nodes later.now.nodes self.now.styles (arc_value styled.styles) styled.made.items }
        ensures lists { IfOk result (λ t. AreStyledLists later.now t.table.styles t.table.lists) }
        ensures made { IfOk result (λ t. IfSome t.made (λ v. AreRestyled self.now.lists.contexts t.table.lists.contexts v.items)) }
        ensures part { IfOk result (λ t. t.part ≡ None) }
    {
        let StyledNodes { styles, made } = styled;
        let of = DocPair {
            doc,
            was: &self.styles,
            later,
            styles: &styles,
        };
        let later = contexts_after_all(alloc, &of, &made, self.cells.contexts())?;
        self.with_contexts(alloc, LaterStyles { styles, part: None }, later)
    }

    /// The same for one edit.
    fn edited_once(
        &mut self,
        alloc: Global,
        doc: &Doc,
        edit: &Edit,
        later: &Doc,
    ) -> Result<EditedTable, NoMemory>
        requires are { AreStyledLists doc.now self.old.styles self.old.lists }
        requires accepted { fault doc.now edit.now ≡ None }
        requires later { later.now ≡ after doc.now edit.now }
        ensures lists { IfOk result (λ t. AreStyledLists later.now t.table.styles t.table.lists) }
        ensures made { IfOk result (λ t. IfSome t.made (λ v. AreRestyled self.old.lists.contexts t.table.lists.contexts v.items)) }
        ensures part { IfOk result (λ t. IfSome t.part (AreSameOutside self.old.styles t.table.styles)) }
        ensures same { self.new ≡ self.old }
    {
        let styled = self.styles_after(alloc, doc, edit, later)?;
        let of = EditedDoc {
            doc,
            was: &self.styles,
            edit,
            later,
            styles: &styled.styles,
        };
        let contexts = contexts_after(alloc, &of, self.cells.contexts())?;
        self.with_contexts(alloc, styled, contexts)
    }

    /// The computed styles of a document after an edit, where this is the one before it. They are shared where a text changes, which has
    /// no declarations.
    fn styles_after(
        &mut self,
        alloc: Global,
        doc: &Doc,
        edit: &Edit,
        later: &Doc,
    ) -> Result<LaterStyles, NoMemory>
        requires styles { HasStyles (parents_of doc.now.nodes) (declarations_of doc.now.nodes) self.old.styles }
        requires accepted { fault doc.now edit.now ≡ None }
        requires later { later.now ≡ after doc.now edit.now }
        ensures styles { IfOk result (λ s. HasStyles (parents_of later.now.nodes) (declarations_of later.now.nodes) (arc_value s.styles)) }
        ensures part { IfOk result (λ s. IfSome s.part (AreSameOutside self.old.styles (arc_value s.styles))) }
        ensures same { self.new ≡ self.old }
    {
        match edit {
            Edit::SetText { .. } => {
                let styles = self.styles.clone()?;
                let part = Some(Part { from: 0, until: 0 });
                Ok(LaterStyles { styles, part })
            }
            Edit::SetStyle { .. } | Edit::ClearStyle { .. } => {
                self.written_over(alloc, doc, edit, later)
            }
            _ => {
                let styles = restyled(alloc, doc, &self.styles, edit, later)?;
                let styles = Arc::new(alloc, styles)?;
                Ok(LaterStyles { styles, part: None })
            }
        }
    }

    /// The same for an edit of declarations: the spare styles are written over, or a copy.
    fn written_over(
        &mut self,
        alloc: Global,
        doc: &Doc,
        edit: &Edit,
        later: &Doc,
    ) -> Result<LaterStyles, NoMemory>
        requires declares { IsStyleEdit edit.now }
        requires styles { HasStyles (parents_of doc.now.nodes) (declarations_of doc.now.nodes) self.old.styles }
        requires accepted { fault doc.now edit.now ≡ None }
        requires later { later.now ≡ after doc.now edit.now }
        ensures styles { IfOk result (λ s. HasStyles (parents_of later.now.nodes) (declarations_of later.now.nodes) (arc_value s.styles)) }
        ensures part { IfOk result (λ s. IfSome s.part (AreSameOutside self.old.styles (arc_value s.styles))) }
        ensures same { self.new ≡ self.old }
    {
        let mut styles = self.styles_to_write(alloc)?;
        let part = write_over(doc, &mut styles, edit, later);
        let shared = Arc::new(alloc, Computed::new(styles))?;
        Ok(LaterStyles {
            styles: shared,
            part: Some(part),
        })
    }

    /// Styles that are equal to those of this table: the spare ones, which are taken out, or a copy.
    fn styles_to_write(&mut self, alloc: Global) -> Result<Vec<Style>, NoMemory>
        ensures styles { IfOk result (λ v. v.items ≡ self.old.styles) }
        ensures same { self.new ≡ self.old }
    {
        if let Some(spare) = self.spare.take() {
            return Ok(spare);
        }
        let copy = Vec::from_slice(alloc, self.styles.as_slice())?;
        Ok(copy)
    }

    /// Takes a later table in its stead. The styles of this one are kept beside it, where the two are known to be the same outside a part.
    pub(crate) fn become_edited(&mut self, later: DocumentTable, part: Option<Part>)
        requires { IfSome part (AreSameOutside self.old.styles later.styles) }
        ensures { self.new ≡ later }
    {
        let was = mem::replace(self, later);
        self.keep_spare(was, part);
    }

    /// Takes the styles of an earlier table as spare ones, where these are the same outside a part.
    fn keep_spare(&mut self, was: DocumentTable, part: Option<Part>)
        requires { IfSome part (AreSameOutside was.styles self.old.styles) }
        ensures { self.new ≡ self.old }
    {
        let Some(part) = part else {
            return;
        };
        let Some(spare) = styles_of_table(was) else {
            return;
        };
        self.spare = Some(followed(spare, &self.styles, part));
    }

    /// That of these styles and later contexts. Where these keep all but the styles and texts of their boxes, their cells stand where those
    /// of this table do.
    fn with_contexts(
        &self,
        alloc: Global,
        styled: LaterStyles,
        later: LaterContexts,
    ) -> Result<EditedTable, NoMemory>
        requires made { IfSome later.made (λ v. AreRestyled self.now.lists.contexts later.contexts v.items) }
        ensures styles { IfOk result (λ t. t.table.styles ≡ arc_value styled.styles) }
        ensures part { IfOk result (λ t. t.part ≡ styled.part) }
        ensures contexts { IfOk result (λ t. t.table.lists.contexts ≡ later.contexts) }
        ensures formatting { IfOk result (λ t. AreFormattingContextsOf t.table.lists.contexts t.table.lists.formatting_contexts) }
        ensures made { IfOk result (λ t. IfSome t.made (λ v. AreRestyled self.now.lists.contexts t.table.lists.contexts v.items)) }
    {
        let LaterContexts { contexts, made } = later;
        let LaterStyles { styles, part } = styled;
        let cells = match &made {
            Some(made) => self.cells.restyled(alloc, contexts, made)?,
            None => CellTable::new(alloc, contexts)?,
        };
        let table = DocumentTable::of_cells(alloc, styles, cells)?;
        Ok(EditedTable { table, made, part })
    }

    /// That of a document with these computed styles.
    fn of_styles(alloc: Global, doc: &Doc, styles: Arc<Computed>) -> Result<DocumentTable, NoMemory>
        requires { HasStyles (parents_of doc.now.nodes) (declarations_of doc.now.nodes) (arc_value styles) }
        ensures { IfOk result (λ t. AreStyledLists doc.now t.styles t.lists) }
    {
        let contexts = contexts_of(alloc, doc, &styles)?;
        DocumentTable::of_contexts(alloc, styles, contexts)
    }

    /// That of these styles and contexts.
    fn of_contexts(
        alloc: Global,
        styles: Arc<Computed>,
        contexts: Contexts,
    ) -> Result<DocumentTable, NoMemory>
        ensures styles { IfOk result (λ t. t.styles ≡ arc_value styles) }
        ensures contexts { IfOk result (λ t. t.lists.contexts ≡ contexts) }
        ensures formatting { IfOk result (λ t. AreFormattingContextsOf t.lists.contexts t.lists.formatting_contexts) }
    {
        let cells = CellTable::new(alloc, contexts)?;
        DocumentTable::of_cells(alloc, styles, cells)
    }

    /// That of these styles and cells.
    fn of_cells(
        alloc: Global,
        styles: Arc<Computed>,
        cells: CellTable,
    ) -> Result<DocumentTable, NoMemory>
        ensures styles { IfOk result (λ t. t.styles ≡ arc_value styles) }
        ensures lists { IfOk result (λ t. t.lists ≡ cells) }
    {
        let measured = measured_contexts(alloc, &cells)?;
        Ok(DocumentTable {
            styles,
            spare: None,
            cells,
            measured,
        })
    }

    /// The contexts, with the places of their cells.
    pub(crate) fn cells(&self) -> &CellTable
        ensures contexts { result.now.contexts ≡ self.now.lists.contexts }
        ensures formatting { result.now.formatting_contexts ≡ self.now.lists.formatting_contexts }
    {
        &self.cells
    }

    /// The contexts, to be compared.
    pub(crate) fn contexts(&self) -> MeasuredContexts<'_>
        ensures { result ≡ self.now.lists }
    {
        MeasuredContexts::new(
            self.cells.contexts(),
            self.cells.formatting_contexts(),
            &self.measured,
        )
    }

    /// The same where all but the styles and texts of their boxes stay.
    pub(crate) fn measured_list(&self) -> MeasuredList<'_>
        ensures contexts { result.contexts.now ≡ self.now.lists.contexts }
        ensures formatting { result.formatting_contexts.now ≡ self.now.lists.formatting_contexts }
        ensures flags { AreContextFlags result.contexts.now result.formatting_contexts.now result.measured.now }
    {
        MeasuredList {
            contexts: self.cells.contexts(),
            formatting_contexts: self.cells.formatting_contexts(),
            measured: &self.measured,
        }
    }
}

/// What a table becomes by an edit. Where all but styles and texts of boxes stays, it is known of which contexts these were made anew.
/// It may be known that just the nodes of a part have other styles.
#[derive(Drop)]
pub(crate) struct EditedTable {
    pub(crate) table: DocumentTable,
    pub(crate) made: Option<Vec<bool>>,
    pub(crate) part: Option<Part>,
}

/// The computed styles of a later document. It may be known that just the nodes of a part have other ones than before.
#[derive(Drop)]
struct LaterStyles {
    styles: Arc<Computed>,
    part: Option<Part>,
}

/// The computed styles of a document, and for each node whether its style was made anew.
#[derive(Drop)]
struct StyledNodes {
    styles: Arc<Computed>,
    made: Vec<bool>,
}

/// The styles of a table that is done with. None where somebody else has them too.
fn styles_of_table(table: DocumentTable) -> Option<Vec<Style>>
    ensures { IfSome result (λ s. s.items ≡ table.styles) }
{
    let DocumentTable { styles, spare, .. } = table;
    if let Some(spare) = spare {
        return Some(spare);
    }
    match Arc::into_inner(styles) {
        Some(styles) => Some(styles.into_styles()),
        None => None,
    }
}

/// A list of styles, made equal to a later one, which has other styles in this part alone.
fn followed(styles: Vec<Style>, later: &Computed, part: Part) -> Vec<Style>
    requires { AreSameOutside styles.items later.now part }
    ensures { result.items ≡ later.now }
{
    let mut styles = styles;
    follow_part(&mut styles, later.as_slice(), part);
    styles
}

/// Whether each of these edits changes a text.
fn are_texts(edits: &[Edit]) -> bool
    ensures { IsTrue result → All IsTextEdit edits.now }
{
    for edit in edits {
        if !is_text_edit(edit) {
            return false;
        }
    }
    true
}

/// Whether an edit changes a text.
fn is_text_edit(edit: &Edit) -> bool
    ensures { IsTrue result → IsTextEdit edit.now }
{
    matches!(edit, Edit::SetText { .. })
}

/// For each context whether its preferred widths count.
fn measured_contexts(alloc: Global, cells: &CellTable) -> Result<Vec<bool>, NoMemory>
    ensures { IfOk result (λ v. AreContextFlags cells.now.contexts cells.now.formatting_contexts v.items) }
{
    let count = cells.contexts().len();
    let mut flags = Vec::with_capacity(alloc, count)?;
    for c in 0..count {
        flags.push(cells.is_measured(c))?;
    }
    Ok(flags)
}
