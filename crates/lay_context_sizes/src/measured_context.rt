//! What a formatting context answers of widths before it is sized.

ghost use Rattle.std.specs.Prelude.{◌≡◌, IfOk};
ghost use Rattle.lay_context_sizes.specs.MeasuredContexts.{not_measured};

use lay_measure::{NO_WIDTHS, PreferredWidths};
use lay_table_sizes::TableBounds;
use lay_units::NoMemory;
use std::marker::Model;

/// The preferred widths of a formatting context, in 1/64 px, and of a table of the automatic layout what its width and its columns
/// depend on.
#[derive(Drop)]
pub struct MeasuredContext {
    widths: PreferredWidths,
    table: TableBounds,
}

impl Model for MeasuredContext {
    ghost use Rattle.lay_context_sizes.specs.MeasuredContexts.{MeasuredContext as Plain};

    ghost Value = { Plain };

    ghost view = { λ m. record { widths = m.widths; table = m.table } };
}

impl MeasuredContext {
    /// These.
    pub fn new(widths: PreferredWidths, table: TableBounds) -> MeasuredContext
        ensures { result ≡ record { widths = widths; table = table } }
    {
        MeasuredContext { widths, table }
    }

    /// Nothing is known of it.
    pub fn none() -> MeasuredContext
        ensures { result ≡ not_measured }
    {
        MeasuredContext {
            widths: NO_WIDTHS,
            table: TableBounds::none(),
        }
    }

    /// Its preferred widths.
    pub fn widths(&self) -> PreferredWidths
        ensures { result ≡ self.now.widths }
    {
        self.widths
    }

    /// The bounds of the table.
    pub fn table(&self) -> &TableBounds
        ensures { result.now ≡ self.now.table }
    {
        &self.table
    }

    /// The widths, shared: none is copied.
    pub fn share(&self) -> Result<MeasuredContext, NoMemory>
        ensures { IfOk result (λ m. m ≡ self.now) }
    {
        let table = self.table.share()?;
        Ok(MeasuredContext {
            widths: self.widths,
            table,
        })
    }
}
