//! What the roots of a context with anonymous tables and cells are given from outside their cell.

ghost use Rattle.std.specs.Prelude.{◌≡◌, ◌<◌, true, false, None, [], IfOk, length};
ghost use Rattle.lay_contexts.specs.FormattingContexts.{formatting_context_at};
ghost use Rattle.lay_context.specs.declared.input.Input.TheVariants.{Size};
ghost use Rattle.lay_context.specs.Local.{size_input};
ghost use Rattle.lay_context.specs.Medium.{Medium};
ghost use Rattle.lay_cell_work.specs.CellColumns.{links_of};
ghost use Rattle.lay_cell_work.specs.PresentInputs.{root_input_as, spot_in};
ghost use Rattle.lay_kept_cells.specs.Table.LinkedRoots.{asks_links, asks_spot};
ghost use Rattle.lay_kept_cells.specs.Table.TableCells.{workings_in};

use crate::steps::kept_values_are_counted;
use crate::table::cell_values::CellValues;
use crate::table::links::links_of;
use lay_cell_work::{RootInput, RootSpot, masked_input, no_setting};
use lay_context::{Input, Values};
use lay_context_sizes::SizeInput;
use lay_contexts::FormattingContexts;
use lay_units::NoMemory;
use std::alloc::Global;

/// What the formatting context with the number i is given, whose task is given this in all, and where `first` is the number of its
/// context's own one.
pub(crate) fn linked_input(
    alloc: Global,
    all: &FormattingContexts,
    first: usize,
    i: usize,
    given: Input,
) -> Result<RootInput, NoMemory>
    requires within { i < length all.now }
    requires own { asks_spot given ≡ true → (formatting_context_at all.now i).anonymous ≡ false }
    ensures { IfOk result (λ x. x ≡ root_input_as (links_of all.now first i) (spot_in all.now first i) given) }
{
    if !asks_links(&given) {
        return Ok(unlinked_root(alloc, given));
    }
    let links = links_of(alloc, all, first, i)?;
    let given = masked_input(alloc, &links, given)?;
    Ok(RootInput::new(given, links, None))
}

/// A root that is given this alone.
pub(crate) fn unlinked_root(alloc: Global, given: Input) -> RootInput
    ensures { result ≡ record { given = given; links = []; around = None } }
{
    RootInput::new(given, Vec::new(alloc), None)
}

/// Whether other roots give something to a task that is given this.
fn asks_links(given: &Input) -> bool
    ensures { result ≡ asks_links given.now }
{
    match given {
        Input::Measure(_) | Input::Place(..) | Input::PlaceTable(..) => true,
        Input::Unmeasured | Input::Size(_) => false,
    }
}

/// What the formatting context with the number i is given to be sized, which is an anonymous one: its boxes and its preferred widths, and
/// where its box stands.
pub(crate) fn inner_size_input(
    alloc: Global,
    values: &CellValues<'_>,
    first: usize,
    i: usize,
) -> Result<RootInput, NoMemory>
    requires within { i < length values.now.table.now.formatting_contexts }
    requires anonymous { (formatting_context_at values.now.table.now.formatting_contexts i).anonymous ≡ true }
    ensures { IfOk result
        (λ x. (medium : Medium)
        → x ≡ root_input_as (links_of values.now.table.now.formatting_contexts first i)
        (spot_in values.now.table.now.formatting_contexts first i)
        (Size
        (size_input medium values.now.table.now.formatting_contexts (workings_in values.now.table.now values.now.cells.now.rows) i))) }
{
    kept_values_are_counted();
    let context = values.table.formatting_contexts().at(i);
    let boxes = context.boxes().share()?;
    let measured = values.widths(i).share()?;
    let given = SizeInput::new(boxes, measured, no_setting());
    let around = RootSpot {
        root: context.outer().saturating_sub(first),
        place: context.outer_box(),
    };
    Ok(RootInput::new(Input::Size(given), Vec::new(alloc), Some(around)))
}
