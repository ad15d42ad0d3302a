//! What a cell answers.

ghost use Rattle.std.specs.Prelude.{◌≡◌, option_map, slice_get};
ghost use Rattle.lay_cell_work.specs.CellValues.{Places, Sizes, Widths, own_measured, own_places, own_sizes, phase_of, root_count_of};

use crate::root_values::{RootPlaces, RootSizes, RootValues, RootWidths};
use lay_context::{Phase, PlacedContext};
use lay_context_sizes::{MeasuredContext, SizedContext};
use std::marker::Model;

/// A value of one phase for each root of a context: first for its own box, then for the anonymous tables and cells in the order of their
/// boxes.
#[derive(Drop)]
pub struct CellValue {
    values: RootValues,
}

impl Model for CellValue {
    ghost use Rattle.lay_cell_work.specs.CellValues.{CellValue as Plain};
    ghost use Rattle.lay_cell_work.specs.ValueParts.{root_cell_value};

    ghost Value = { Plain };

    ghost view = { λ v. root_cell_value v.values };
}

impl CellValue {
    /// These preferred widths, with the bounds of tables.
    pub fn of_widths(widths: Vec<MeasuredContext>) -> CellValue
        ensures { result ≡ Widths widths.items }
    {
        CellValue {
            values: RootValues::Widths(RootWidths::new(widths)),
        }
    }

    /// These sizes.
    pub fn of_sizes(sizes: Vec<SizedContext>) -> CellValue
        ensures { result ≡ Sizes sizes.items }
    {
        CellValue {
            values: RootValues::Sizes(RootSizes::new(sizes)),
        }
    }

    /// These placements.
    pub fn of_places(places: Vec<PlacedContext>) -> CellValue
        ensures { result ≡ Places places.items }
    {
        CellValue {
            values: RootValues::Places(RootPlaces::new(places)),
        }
    }

    /// The phase that it is of.
    pub fn phase(&self) -> Phase
        ensures { result ≡ phase_of self.now }
    {
        match &self.values {
            RootValues::Widths(_) => Phase::Measure,
            RootValues::Sizes(_) => Phase::Size,
            RootValues::Places(_) => Phase::Place,
        }
    }

    /// Of how many roots it is.
    pub fn root_count(&self) -> usize
        ensures { result ≡ root_count_of self.now }
    {
        match &self.values {
            RootValues::Widths(widths) => widths.as_slice().len(),
            RootValues::Sizes(sizes) => sizes.as_slice().len(),
            RootValues::Places(places) => places.as_slice().len(),
        }
    }

    /// The preferred widths of the root r, with the bounds of a table. There are none past the last root and of another phase.
    pub fn widths(&self, r: usize) -> Option<&MeasuredContext>
        ensures { option_map (λ m. m.now) result ≡ slice_get (own_measured self.now) r }
    {
        match &self.values {
            RootValues::Widths(widths) => widths.as_slice().get(r),
            _ => None,
        }
    }

    /// The sizes of the root r. There are none past the last root and of another phase.
    pub fn sizes(&self, r: usize) -> Option<&SizedContext>
        ensures { option_map (λ z. z.now) result ≡ slice_get (own_sizes self.now) r }
    {
        match &self.values {
            RootValues::Sizes(sizes) => sizes.as_slice().get(r),
            _ => None,
        }
    }

    /// The placement of the root r. There is none past the last root and of another phase.
    pub fn placed(&self, r: usize) -> Option<&PlacedContext>
        ensures { option_map (λ p. p.now) result ≡ slice_get (own_places self.now) r }
    {
        match &self.values {
            RootValues::Places(places) => places.as_slice().get(r),
            _ => None,
        }
    }
}
