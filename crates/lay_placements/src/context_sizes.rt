//! The used sizes of the boxes of one context.

ghost use Rattle.std.specs.Prelude.{◌≡◌, IfOk};
ghost use Rattle.lay_sizes.specs.SizeColumns.{HaveSizeBounds};

use lay_sizes::BoxSizes;
use lay_units::NoMemory;
use std::alloc::Global;
use std::marker::Model;
use std::sync::Arc;

/// The used sizes of the boxes of a context, in their order. Whoever is given them shares them.
#[derive(Drop)]
pub struct ContextSizes {
    items: Arc<Vec<BoxSizes>>,
}

impl Model for ContextSizes {
    ghost use Rattle.std.specs.Prelude.{List};
    ghost use Rattle.lay_sizes.specs.declared.sizing.BoxSizes.{BoxSizes};
    ghost use Rattle.lay_sizes.specs.SizeColumns.{HaveSizeBounds};

    ghost Value = { List BoxSizes };

    ghost view = { λ s. s.items.value.items };

    ghost invariant = { λ s. HaveSizeBounds s.items.value.items };
}

impl ContextSizes {
    pub fn new(alloc: Global, items: Vec<BoxSizes>) -> Result<ContextSizes, NoMemory>
        requires { HaveSizeBounds items.items }
        ensures { IfOk result (λ s. s ≡ items.items) }
    {
        let items = Arc::new(alloc, items)?;
        Ok(ContextSizes { items })
    }

    pub fn as_slice(&self) -> &[BoxSizes]
        ensures sizes { result.now ≡ self.now }
        ensures bounds { HaveSizeBounds self.now }
    {
        self.items.as_slice()
    }

    /// The same sizes, shared.
    pub fn share(&self) -> Result<ContextSizes, NoMemory>
        ensures { IfOk result (λ s. s ≡ self.now) }
    {
        let items = self.items.clone()?;
        Ok(ContextSizes { items })
    }
}
