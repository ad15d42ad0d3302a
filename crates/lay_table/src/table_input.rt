//! What the placement of a table is given.

ghost use Rattle.std.specs.Prelude.{◌≡◌};
ghost use Rattle.lay_placements.specs.InnerPieces.{inner_pieces_at};
ghost use Rattle.lay_placements.specs.NearPieces.{AreNearPieces};
ghost use Rattle.lay_table.specs.TableInputs.{TableInputFits};

use lay_box_tree::{BoxNode, ContextBoxes};
use lay_frag::Frag;
use lay_placements::{ContextSizes, InnerPieces, OwnBoxes};
use lay_sizes::{BoxSizes, OwnBox};
use lay_table_grid::TableGrid;
use lay_table_sizes::TableSizes;
use std::marker::Model;

/// The boxes of a table's formatting context (CSS 2.2, 17.4), their used sizes, those of the table's columns and cells, the boxes of
/// the formatting contexts inside it, and the pieces of the anonymous ones.
#[derive(Drop)]
pub struct TableInput {
    boxes: ContextBoxes,
    sizes: ContextSizes,
    table: TableSizes,
    inner: OwnBoxes,
    pieces: InnerPieces,
}

impl Model for TableInput {
    ghost use Rattle.lay_table.specs.TableInputs.{TableInput as Plain, TableInputFits};

    ghost Value = { Plain };

    ghost view = { λ i. record { boxes = i.boxes; sizes = i.sizes; table = i.table; inner = i.inner; pieces = i.pieces } };

    ghost invariant = { λ i.
        TableInputFits (record { boxes = i.boxes; sizes = i.sizes; table = i.table; inner = i.inner; pieces = i.pieces }) };
}

impl TableInput {
    /// These.
    pub fn new(
        boxes: ContextBoxes,
        sizes: ContextSizes,
        table: TableSizes,
        inner: OwnBoxes,
        pieces: InnerPieces,
    ) -> TableInput
        requires { TableInputFits (record { boxes = boxes; sizes = sizes; table = table; inner = inner; pieces = pieces }) }
        ensures { result ≡ record { boxes = boxes; sizes = sizes; table = table; inner = inner; pieces = pieces } }
    {
        TableInput {
            boxes,
            sizes,
            table,
            inner,
            pieces,
        }
    }

    /// The boxes of the formatting context, of which the first is the wrapper (CSS 2.2, 17.4).
    pub fn boxes(&self) -> &[BoxNode]
        ensures boxes { result.now ≡ self.now.boxes }
        ensures fits { TableInputFits self.now }
    {
        self.boxes.as_slice()
    }

    /// The used sizes of these boxes, in 1/64 px.
    pub fn sizes(&self) -> &[BoxSizes]
        ensures { result.now ≡ self.now.sizes }
    {
        self.sizes.as_slice()
    }

    /// The structure of the table, and the used widths of its columns and cells.
    pub fn table(&self) -> &TableSizes
        ensures { result.now ≡ self.now.table }
    {
        &self.table
    }

    /// The structure of the table.
    pub fn grid(&self) -> &TableGrid
        ensures { result.now ≡ self.now.table.grid }
    {
        self.table.grid()
    }

    /// The boxes of the formatting contexts inside it.
    pub(crate) fn inner(&self) -> &[OwnBox]
        ensures { result.now ≡ self.now.inner }
    {
        self.inner.as_slice()
    }

    /// The pieces of the anonymous formatting context of the box at k.
    pub fn pieces(&self, k: usize) -> &[Frag]
        ensures pieces { result.now ≡ inner_pieces_at self.now.pieces k }
        ensures near { AreNearPieces result.now }
    {
        self.pieces.at(k)
    }
}
