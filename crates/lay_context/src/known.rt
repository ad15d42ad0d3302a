//! The values of a layout's tasks, as far as they are known.

ghost use Rattle.std.specs.Prelude.{◌≡◌, ◌<◌, length, IfOk};
ghost use Rattle.lay_context.specs.Local.{with_value};

use crate::nothing_known::{no_pieces, not_placed, not_sized};
use crate::placed_context::PlacedContext;
use crate::value::Value;
use crate::values::Values;
use lay_context_sizes::{MeasuredContext, SizedContext};
use lay_units::NoMemory;
use std::alloc::Global;
use std::marker::Model;

/// A value for each formatting context and phase; those that aren't known yet are empty.
#[derive(Drop)]
pub(crate) struct Known {
    widths: Vec<MeasuredContext>,
    sizes: Vec<SizedContext>,
    places: Vec<PlacedContext>,
}

impl Model for Known {
    ghost use Rattle.std.specs.Prelude.{◌≡◌, length};
    ghost use Rattle.lay_context.specs.Workings.{Workings};

    ghost Value = { Workings };

    ghost view = { λ k. record { widths = k.widths.items; sizes = k.sizes.items; places = k.places.items } };

    ghost invariant = { λ k. (length k.widths.items ≡ length k.sizes.items) × (length k.places.items ≡ length k.sizes.items) };
}

impl Known {
    /// Nothing is known of so many formatting contexts.
    pub(crate) fn new(alloc: Global, count: usize) -> Result<Known, NoMemory>
        ensures widths { IfOk result (λ k. length k.widths ≡ count) }
        ensures sizes { IfOk result (λ k. length k.sizes ≡ count) }
        ensures places { IfOk result (λ k. length k.places ≡ count) }
    {
        let mut widths = Vec::with_capacity(alloc, count)?;
        let mut sizes = Vec::with_capacity(alloc, count)?;
        let mut places = Vec::with_capacity(alloc, count)?;
        let not_sized = not_sized(alloc)?;
        let no_pieces = no_pieces(alloc)?;
        for _known in 0..count {
            widths.push(MeasuredContext::none())?;
            sizes.push(not_sized.share()?)?;
            places.push(not_placed(alloc, &no_pieces)?)?;
        }
        Ok(Known {
            widths,
            sizes,
            places,
        })
    }

    /// Notes a value of the formatting context with this number.
    pub(crate) fn set(&mut self, i: usize, value: Value)
        requires { i < length self.old.sizes }
        ensures { self.new ≡ with_value self.old i value }
    {
        match value {
            Value::Measure(widths) => self.widths[i] = widths,
            Value::Size(sizes) => self.sizes[i] = sizes,
            Value::Place(placed) => self.places[i] = placed,
        }
    }
}

impl Values for Known {
    ghost workings = { λ k. k };

    fn widths(&self, i: usize) -> &MeasuredContext {
        &self.widths[i]
    }

    fn sizes(&self, i: usize) -> &SizedContext {
        &self.sizes[i]
    }

    fn placed(&self, i: usize) -> &PlacedContext {
        &self.places[i]
    }
}
