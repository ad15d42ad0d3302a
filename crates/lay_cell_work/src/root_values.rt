//! Values of the roots of a context.

ghost use Rattle.std.specs.Prelude.{◌≡◌};

use lay_context::PlacedContext;
use lay_context_sizes::{MeasuredContext, SizedContext};
use std::marker::Model;

/// The preferred widths of each root, with the bounds of a table.
#[derive(Drop)]
pub(crate) struct RootWidths {
    items: Vec<MeasuredContext>,
}

impl Model for RootWidths {
    ghost use Rattle.std.specs.Prelude.{List};
    ghost use Rattle.lay_context_sizes.specs.MeasuredContexts.{MeasuredContext as Measured};

    ghost Value = { List Measured };

    ghost view = { λ w. w.items.items };
}

impl RootWidths {
    pub(crate) fn new(items: Vec<MeasuredContext>) -> RootWidths
        ensures { result ≡ items.items }
    {
        RootWidths { items }
    }

    pub(crate) fn as_slice(&self) -> &[MeasuredContext]
        ensures { result.now ≡ self.now }
    {
        self.items.as_slice()
    }
}

/// The sizes of each root.
#[derive(Drop)]
pub(crate) struct RootSizes {
    items: Vec<SizedContext>,
}

impl Model for RootSizes {
    ghost use Rattle.std.specs.Prelude.{List};
    ghost use Rattle.lay_context_sizes.specs.ContextSizes.{SizedContext as Sized};

    ghost Value = { List Sized };

    ghost view = { λ z. z.items.items };
}

impl RootSizes {
    pub(crate) fn new(items: Vec<SizedContext>) -> RootSizes
        ensures { result ≡ items.items }
    {
        RootSizes { items }
    }

    pub(crate) fn as_slice(&self) -> &[SizedContext]
        ensures { result.now ≡ self.now }
    {
        self.items.as_slice()
    }
}

/// The placements of each root.
#[derive(Drop)]
pub(crate) struct RootPlaces {
    items: Vec<PlacedContext>,
}

impl Model for RootPlaces {
    ghost use Rattle.std.specs.Prelude.{List};
    ghost use Rattle.lay_context.specs.PlacedContexts.{PlacedContext as Placed};

    ghost Value = { List Placed };

    ghost view = { λ p. p.items.items };
}

impl RootPlaces {
    pub(crate) fn new(items: Vec<PlacedContext>) -> RootPlaces
        ensures { result ≡ items.items }
    {
        RootPlaces { items }
    }

    pub(crate) fn as_slice(&self) -> &[PlacedContext]
        ensures { result.now ≡ self.now }
    {
        self.items.as_slice()
    }
}

/// Those of one phase.
#[derive(Drop)]
pub(crate) enum RootValues {
    Widths(RootWidths),
    Sizes(RootSizes),
    Places(RootPlaces),
}
