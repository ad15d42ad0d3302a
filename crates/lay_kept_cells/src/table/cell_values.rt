//! The values that cells keep.

ghost use Rattle.std.specs.Prelude.{◌≡◌, ◌<◌, length, map, option_map, slice_index_or};
ghost use Rattle.lay_cells.specs.Rows.{entry_of};
ghost use Rattle.lay_context.specs.DocumentLayout.{widths_in};
ghost use Rattle.lay_context.specs.PlacedContexts.{placed_in};
ghost use Rattle.lay_context.specs.Settings.{sizes_in};
ghost use Rattle.lay_context.specs.declared.task.Phase.TheVariants as phase;
ghost use Rattle.lay_shape.specs.Shapes.{shape_of};
ghost use Rattle.lay_cell_work.specs.CellValues.{own_measured, own_places, own_sizes};
ghost use Rattle.lay_cell_work.specs.KeptValues.{kept_value, kept_workings};
ghost use Rattle.lay_kept_cells.specs.Table.KeptCells.{kept_or_none};
ghost use Rattle.lay_kept_cells.specs.Table.RootColumns.{IsRootOf};

use crate::steps::kept_values_are_counted;
use crate::table::cell_table::CellTable;
use crate::table::context_root::ContextRoot;
use lay_cell_work::cell_laws::values_stand_at_numbers;
use lay_cell_work::{CellValue, Layout};
use lay_cells::{Cells, Done};
use lay_context::{Phase, PlacedContext, Values};
use lay_context_sizes::{MeasuredContext, SizedContext};

/// The values that the cells of these contexts keep, which are known by the numbers of the formatting contexts. Where a cell keeps
/// nothing they are empty.
#[derive(Drop)]
pub struct CellValues<'a> {
    pub table: &'a CellTable,
    pub cells: &'a Cells<Layout>,
    ghost shaped: { map entry_of cells.now.rows ≡ shape_of table.now.contexts },
}

impl<'a> CellValues<'a> {
    /// What the cell of a context keeps for a phase.
    fn kept(&self, context: usize, phase: Phase) -> Option<&'a CellValue>
        requires { context < length self.now.table.now.contexts }
        ensures { kept_or_none phase (option_map (λ v. v.now) result)
            ≡ kept_value self.now.cells.now.rows self.now.table.now.contexts context phase }
    {
        self.cells.sound();
        let place = self.table.place_of(context, phase);
        match self.cells.kept_at(place) {
            Some(done) => Some(value_in(done)),
            None => None,
        }
    }

    /// The preferred widths of a root, with the bounds of a table.
    fn kept_widths(&self, root: ContextRoot) -> &MeasuredContext
        requires { root.context < length self.now.table.now.contexts }
        ensures { result.now
            ≡ widths_in
            (own_measured (kept_value self.now.cells.now.rows self.now.table.now.contexts root.context phase.Measure)) root.root }
    {
        match self.kept(root.context, Phase::Measure) {
            Some(value) => widths_or(value, root.root, self.table.no_widths()),
            None => self.table.no_widths(),
        }
    }

    /// The sizes of a root.
    fn kept_sizes(&self, root: ContextRoot) -> &SizedContext
        requires { root.context < length self.now.table.now.contexts }
        ensures { result.now
            ≡ sizes_in (own_sizes (kept_value self.now.cells.now.rows self.now.table.now.contexts root.context phase.Size)) root.root }
    {
        match self.kept(root.context, Phase::Size) {
            Some(value) => sizes_or(value, root.root, self.table.no_sizes()),
            None => self.table.no_sizes(),
        }
    }

    /// The placement of a root.
    fn kept_place(&self, root: ContextRoot) -> &PlacedContext
        requires { root.context < length self.now.table.now.contexts }
        ensures { result.now
            ≡ placed_in (own_places (kept_value self.now.cells.now.rows self.now.table.now.contexts root.context phase.Place)) root.root }
    {
        match self.kept(root.context, Phase::Place) {
            Some(value) => placed_or(value, root.root, self.table.no_place()),
            None => self.table.no_place(),
        }
    }

    /// Which root the formatting context with this number is.
    fn root_at(&self, i: usize) -> ContextRoot
        requires { i < length self.now.table.now.formatting_contexts }
        ensures { IsRootOf self.now.table.now.contexts result i }
    {
        self.table.root_at(i)
    }
}

impl Values for CellValues<'_> {
    ghost use Rattle.lay_cell_work.specs.KeptValues.{kept_workings};

    ghost workings = { λ v. kept_workings v.cells.now.rows v.table.now.contexts };

    fn widths(&self, i: usize) -> &MeasuredContext {
        kept_values_are_counted();
        values_stand_at_numbers();
        let _ = self.table.formatting_contexts();
        self.kept_widths(self.root_at(i))
    }

    fn sizes(&self, i: usize) -> &SizedContext {
        kept_values_are_counted();
        values_stand_at_numbers();
        let _ = self.table.formatting_contexts();
        self.kept_sizes(self.root_at(i))
    }

    fn placed(&self, i: usize) -> &PlacedContext {
        kept_values_are_counted();
        values_stand_at_numbers();
        let _ = self.table.formatting_contexts();
        self.kept_place(self.root_at(i))
    }
}

fn value_in(done: &Done<Layout>) -> &CellValue
    ensures { result.now ≡ done.now.value }
{
    done.value()
}

/// The preferred widths of the root r, and these where that isn't there.
fn widths_or<'a>(value: &'a CellValue, r: usize, none: &'a MeasuredContext) -> &'a MeasuredContext
    ensures { result.now ≡ slice_index_or (own_measured value.now) r none.now }
{
    match value.widths(r) {
        Some(widths) => widths,
        None => none,
    }
}

/// The sizes of the root r, and these where that isn't there.
fn sizes_or<'a>(value: &'a CellValue, r: usize, none: &'a SizedContext) -> &'a SizedContext
    ensures { result.now ≡ slice_index_or (own_sizes value.now) r none.now }
{
    match value.sizes(r) {
        Some(sizes) => sizes,
        None => none,
    }
}

/// The placement of the root r, and this one where that isn't there.
fn placed_or<'a>(value: &'a CellValue, r: usize, none: &'a PlacedContext) -> &'a PlacedContext
    ensures { result.now ≡ slice_index_or (own_places value.now) r none.now }
{
    match value.placed(r) {
        Some(placed) => placed,
        None => none,
    }
}
