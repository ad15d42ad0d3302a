//! The contexts of a document with the places of their cells.

ghost use Rattle.std.specs.Prelude.{◌≡◌, ◌<◌, ◌+◌, IfOk, Some, length, map, slice_get};
ghost use Rattle.lay_contexts.specs.FormattingContextList.{AreFormattingContextsOf, first_number};
ghost use Rattle.lay_context.specs.Measured.{is_measured};
ghost use Rattle.lay_context.specs.MeasuredFlags.{AreMeasured};
ghost use Rattle.lay_context.specs.PlacedContexts.{not_placed};
ghost use Rattle.lay_context_sizes.specs.ContextSizes.{not_sized};
ghost use Rattle.lay_context_sizes.specs.MeasuredContexts.{not_measured};
ghost use Rattle.lay_after_edits.specs.Contexts.Links.{AreRestyled};
ghost use Rattle.lay_cell_work.specs.PresentInputs.{root_count};
ghost use Rattle.lay_shape.specs.Dependencies.{in_phase};
ghost use Rattle.lay_shape.specs.Keys.{AreOfOwnNodes, key_of};
ghost use Rattle.lay_shape.specs.Shapes.{cells_of, shape_of};
ghost use Rattle.lay_kept_cells.specs.Table.RootColumns.{IsRootOf};

use crate::table::cell_places::{CellPlaces, cell_in, cell_places, place_in};
use crate::table::context_root::ContextRoot;
use crate::table::root_columns::{RootColumns, number_in, root_columns};
use lay_cells::Shape;
use lay_context::{Phase, PlacedContext, measured_flags, no_pieces, not_placed, not_sized};
use lay_context_sizes::{MeasuredContext, SizedContext};
use lay_contexts::{
    Contexts, FormattingContexts, LaterBoxes, formatting_contexts, later_formatting_contexts,
};
use lay_shape::{CellKey, ContextPhase, cells_of, key_of, shape};
use lay_units::NoMemory;
use std::alloc::Global;
use std::marker::Model;
use std::sync::Arc;

/// The contexts of a document with their formatting contexts. It is known which root each of these is, and where the cells of each
/// context stand, so that nothing is searched for.
#[derive(Drop)]
pub struct CellTable {
    contexts: Contexts,
    formatting_contexts: FormattingContexts,
    measured: Vec<bool>,
    shared: Arc<SharedColumns>,
}

/// What the links of contexts say without the styles and texts of their boxes: which root each formatting context is, the cells in
/// their order, and where those of each context stand. Beside it stands what is read of a cell that keeps nothing. Tables of contexts
/// with the same links share it.
#[derive(Drop)]
struct SharedColumns {
    roots: RootColumns,
    cells: Vec<ContextPhase>,
    places: Vec<CellPlaces>,
    no_widths: MeasuredContext,
    no_sizes: SizedContext,
    no_place: PlacedContext,
}

impl Model for CellTable {
    ghost use Rattle.lay_kept_cells.specs.Table.CellTables.{AreTableColumns};
    ghost use Rattle.lay_shape.specs.Touched.ContextFlags.{ContextLists};

    ghost Value = { ContextLists };

    ghost view = { λ t. record { contexts = t.contexts; formatting_contexts = t.formatting_contexts } };

    ghost invariant = { λ t. AreTableColumns (record { contexts = t.contexts; formatting_contexts = t.formatting_contexts }) (record {
      measured = t.measured.items;
      roots = t.shared.value.roots.roots.items;
      firsts = t.shared.value.roots.firsts.items;
      cells = t.shared.value.cells.items;
      places = t.shared.value.places.items;
      no_widths = t.shared.value.no_widths;
      no_sizes = t.shared.value.no_sizes;
      no_place = t.shared.value.no_place;
    }) };
}

impl CellTable {
    /// That of these contexts. NoMemory is also the answer for more formatting contexts than 16,777,216, which no document has.
    pub fn new(alloc: Global, contexts: Contexts) -> Result<CellTable, NoMemory>
        ensures contexts { IfOk result (λ t. t.contexts ≡ contexts) }
        ensures are { IfOk result (λ t. AreFormattingContextsOf t.contexts t.formatting_contexts) }
    {
        let _ = contexts.len();
        let formatting_contexts = formatting_contexts(alloc, &contexts)?;
        let measured = measured_flags(alloc, &formatting_contexts)?;
        let roots = root_columns(alloc, &contexts, &formatting_contexts)?;
        let cells = cells_of(alloc, &contexts)?;
        let places = cell_places(alloc, &contexts, &cells)?;
        let no_sizes = not_sized(alloc)?;
        let no_place = not_placed(alloc, &no_pieces(alloc)?)?;
        let columns = SharedColumns {
            roots,
            cells,
            places,
            no_widths: MeasuredContext::none(),
            no_sizes,
            no_place,
        };
        let shared = Arc::new(alloc, columns)?;
        Ok(CellTable {
            contexts,
            formatting_contexts,
            measured,
            shared,
        })
    }

    /// That of later contexts which keep all of these but the styles and texts of their boxes, so that their cells stand where these do.
    /// NoMemory is also the answer for more formatting contexts than 16,777,216, which no document has.
    pub fn restyled(
        &self,
        alloc: Global,
        contexts: Contexts,
        made: &[bool],
    ) -> Result<CellTable, NoMemory>
        requires { AreRestyled self.now.contexts contexts made.now }
        ensures contexts { IfOk result (λ t. t.contexts ≡ contexts) }
        ensures are { IfOk result (λ t. AreFormattingContextsOf t.contexts t.formatting_contexts) }
    {
        let _ = contexts.len();
        let of = LaterBoxes {
            contexts: &self.contexts,
            all: &self.formatting_contexts,
            later: &contexts,
        };
        let all = later_formatting_contexts(alloc, &of, made)?;
        let measured = measured_flags(alloc, &all)?;
        let shared = self.shared.clone()?;
        Ok(CellTable {
            contexts,
            formatting_contexts: all,
            measured,
            shared,
        })
    }

    /// The contexts.
    pub fn contexts(&self) -> &Contexts
        ensures { result.now ≡ self.now.contexts }
    {
        &self.contexts
    }

    /// Their formatting contexts.
    pub fn formatting_contexts(&self) -> &FormattingContexts
        ensures contexts { result.now ≡ self.now.formatting_contexts }
        ensures are { AreFormattingContextsOf self.now.contexts self.now.formatting_contexts }
    {
        &self.formatting_contexts
    }

    /// For each formatting context whether it is measured.
    pub(crate) fn measured(&self) -> &[bool]
        ensures { AreMeasured self.now.formatting_contexts result.now }
    {
        self.measured.as_slice()
    }

    /// Whether the preferred widths of the own box of a context count.
    pub fn is_measured(&self, c: usize) -> bool
        requires { c < length self.now.contexts }
        ensures { result ≡ is_measured self.now.formatting_contexts (first_number self.now.contexts c) }
    {
        let number = self.first_number(c);
        self.measured[number]
    }

    /// The number of the first formatting context of a context, that of its own box.
    pub(crate) fn first_number(&self, c: usize) -> usize
        requires { c < length self.now.contexts }
        ensures { result ≡ first_number self.now.contexts c }
    {
        number_in(&self.shared.roots.firsts, c)
    }

    /// How many roots a context has.
    pub(crate) fn root_count(&self, c: usize) -> usize
        requires { c < length self.now.contexts }
        ensures { result ≡ root_count self.now.contexts c }
    {
        number_in(&self.shared.roots.firsts, c + 1) - number_in(&self.shared.roots.firsts, c)
    }

    /// Which root the formatting context with this number is.
    pub(crate) fn root_at(&self, i: usize) -> ContextRoot
        requires { i < length self.now.formatting_contexts }
        ensures { IsRootOf self.now.contexts result i }
    {
        self.shared.roots.roots[i]
    }

    /// How many cells there are.
    pub fn len(&self) -> usize
        ensures { result ≡ length (cells_of self.now.contexts) }
    {
        self.shared.cells.len()
    }

    /// The cell at a place.
    pub fn cell_at(&self, place: usize) -> ContextPhase
        requires { place < length (cells_of self.now.contexts) }
        ensures cell { slice_get (cells_of self.now.contexts) place ≡ Some result }
        ensures within { result.context < length self.now.contexts }
    {
        cell_in(&self.contexts, &self.shared.cells, place)
    }

    /// The place of the cell of a context for a phase.
    pub fn place_of(&self, context: usize, phase: Phase) -> usize
        requires { context < length self.now.contexts }
        ensures { slice_get (cells_of self.now.contexts) result ≡ Some (in_phase phase context) }
    {
        place_in(self.shared.places[context], phase)
    }

    /// The key of the cell at a place.
    pub fn key_at(&self, place: usize) -> CellKey
        requires { place < length (cells_of self.now.contexts) }
        ensures { slice_get (map (key_of self.now.contexts) (cells_of self.now.contexts)) place ≡ Some result }
    {
        key_of(&self.contexts, self.cell_at(place))
    }

    /// The key of a cell.
    pub fn key_of(&self, cell: ContextPhase) -> CellKey
        requires { cell.context < length self.now.contexts }
        ensures { result ≡ key_of self.now.contexts cell }
    {
        key_of(&self.contexts, cell)
    }

    /// The shape of the cells.
    pub fn shape(&self, alloc: Global) -> Result<Shape<CellKey>, NoMemory>
        requires { AreOfOwnNodes self.now.contexts }
        ensures { IfOk result (λ s. s ≡ shape_of self.now.contexts) }
    {
        shape(alloc, &self.contexts)
    }

    /// What is read of the preferred widths of a context that has none.
    pub(crate) fn no_widths(&self) -> &MeasuredContext
        ensures { result.now ≡ not_measured }
    {
        &self.shared.no_widths
    }

    /// What is read of the sizes of a context that has none.
    pub(crate) fn no_sizes(&self) -> &SizedContext
        ensures { result.now ≡ not_sized }
    {
        &self.shared.no_sizes
    }

    /// What is read of the placement of a context that has none.
    pub(crate) fn no_place(&self) -> &PlacedContext
        ensures { result.now ≡ not_placed }
    {
        &self.shared.no_place
    }
}
