//! What a table's formatting context is placed of.

ghost use Rattle.std.specs.Prelude.{◌≡◌};
ghost use Rattle.lay_table.specs.TableInputs.{TableInputFits};

use crate::shared_pieces::SharedPieces;
use lay_box_tree::ContextBoxes;
use lay_placements::{ContextSizes, OwnBoxes};
use lay_table::TableInput;
use lay_table_sizes::TableSizes;
use std::marker::Model;

/// The boxes of a table's formatting context (CSS 2.2, 17.4), their used sizes, those of the table's columns and cells, the own boxes
/// of the formatting contexts inside it, and the pieces of the anonymous ones.
#[derive(Drop)]
pub struct TableParts {
    boxes: ContextBoxes,
    sizes: ContextSizes,
    table: TableSizes,
    inner: OwnBoxes,
    pieces: SharedPieces,
}

impl Model for TableParts {
    ghost use Rattle.lay_table.specs.TableInputs.{TableInput as Plain, TableInputFits};

    ghost Value = { Plain };

    ghost view = { λ i. record { boxes = i.boxes; sizes = i.sizes; table = i.table; inner = i.inner; pieces = i.pieces } };

    ghost invariant = { λ i.
        TableInputFits (record { boxes = i.boxes; sizes = i.sizes; table = i.table; inner = i.inner; pieces = i.pieces }) };
}

impl TableParts {
    /// These.
    pub fn new(
        boxes: ContextBoxes,
        sizes: ContextSizes,
        table: TableSizes,
        inner: OwnBoxes,
        pieces: SharedPieces,
    ) -> TableParts
        requires { TableInputFits (record { boxes = boxes; sizes = sizes; table = table; inner = inner; pieces = pieces }) }
        ensures { result ≡ record { boxes = boxes; sizes = sizes; table = table; inner = inner; pieces = pieces } }
    {
        TableParts {
            boxes,
            sizes,
            table,
            inner,
            pieces,
        }
    }

    /// The boxes.
    pub fn boxes(&self) -> &ContextBoxes
        ensures boxes { result.now ≡ self.now.boxes }
        ensures fits { TableInputFits self.now }
    {
        &self.boxes
    }

    /// Their used sizes.
    pub fn sizes(&self) -> &ContextSizes
        ensures { result.now ≡ self.now.sizes }
    {
        &self.sizes
    }

    /// The structure of the table, and the used widths of its columns and cells.
    pub fn table(&self) -> &TableSizes
        ensures { result.now ≡ self.now.table }
    {
        &self.table
    }

    /// The own boxes of inner formatting contexts.
    pub fn inner(&self) -> &OwnBoxes
        ensures { result.now ≡ self.now.inner }
    {
        &self.inner
    }

    /// The pieces of the anonymous ones among them.
    pub fn pieces(&self) -> &SharedPieces
        ensures { result.now ≡ self.now.pieces }
    {
        &self.pieces
    }

    /// What the formatting context is placed of, as a placement is given it.
    pub(crate) fn into_input(self) -> TableInput
        ensures { result ≡ self }
    {
        let pieces = self.pieces.into_inner();
        TableInput::new(self.boxes, self.sizes, self.table, self.inner, pieces)
    }
}
