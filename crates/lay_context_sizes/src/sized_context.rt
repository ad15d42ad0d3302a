//! What a formatting context answers of sizes.

ghost use Rattle.std.specs.Prelude.{◌≡◌, IfOk};
ghost use Rattle.lay_abspos.specs.OffsetBounds.{IsStart};
ghost use Rattle.lay_context_sizes.specs.ContextSizes.{SizedContext as Plain};
ghost use Rattle.lay_context_sizes.specs.ContextSizes.{IsStretchedSize};

use lay_placements::ContextSizes;
use lay_table_sizes::TableSizes;
use lay_units::{NoMemory, Unit};
use std::marker::Model;

/// The used sizes of the boxes of a formatting context, and of a table its grid, the widths of its columns and what
/// its cells are given. Of an absolutely positioned one also how far its left border edge is from that of its containing
/// block, and the height of its content where it is stretched, in 1/64 px.
#[derive(Drop)]
pub struct SizedContext {
    boxes: ContextSizes,
    table: Option<TableSizes>,
    left: Unit,
    stretched: Option<Unit>,
}

impl Model for SizedContext {
    ghost use Rattle.lay_context_sizes.specs.ContextSizes.{SizedContext as Plain};
    ghost use Rattle.lay_context_sizes.specs.ContextSizes.{IsStretchedSize};
    ghost use Rattle.lay_abspos.specs.OffsetBounds.{IsStart};

    ghost Value = { Plain };

    ghost view = { λ s. record { boxes = s.boxes; table = s.table; left = s.left; stretched = s.stretched } };

    ghost invariant = { λ s. IsStart s.left.0 × IsStretchedSize s.stretched };
}

impl SizedContext {
    pub fn new(
        boxes: ContextSizes,
        table: Option<TableSizes>,
        left: Unit,
        stretched: Option<Unit>,
    ) -> SizedContext
        requires left { IsStart left.0 }
        requires stretched { IsStretchedSize stretched }
        ensures { result ≡ record { boxes = boxes; table = table; left = left; stretched = stretched } }
    {
        SizedContext {
            boxes,
            table,
            left,
            stretched,
        }
    }

    /// The used sizes of its boxes.
    pub fn boxes(&self) -> &ContextSizes
        ensures { result.now ≡ self.now.boxes }
    {
        &self.boxes
    }

    /// What is known of the table; of what isn't one, none.
    pub fn table(&self) -> &Option<TableSizes>
        ensures { result.now ≡ self.now.table }
    {
        &self.table
    }

    /// How far its left border edge is from that of its containing block.
    pub fn left(&self) -> Unit
        ensures left { result ≡ self.now.left }
        ensures near { IsStart result.0 }
    {
        self.left
    }

    /// The height of its content where it is stretched.
    pub fn stretched(&self) -> Option<Unit>
        ensures height { result ≡ self.now.stretched }
        ensures size { IsStretchedSize result }
    {
        self.stretched
    }

    /// The sizes of the table's columns and cells, if it is a table's, shared: none is copied.
    pub fn shared_table(&self) -> Result<Option<TableSizes>, NoMemory>
        ensures { IfOk result (λ t. t ≡ self.now.table) }
    {
        match &self.table {
            Some(table) => Ok(Some(table.share()?)),
            None => Ok(None),
        }
    }

    /// The sizes, shared: none is copied.
    pub fn share(&self) -> Result<SizedContext, NoMemory>
        ensures { IfOk result (λ s. s ≡ self.now) }
    {
        let boxes = self.boxes.share()?;
        let table = self.shared_table()?;
        Ok(SizedContext {
            boxes,
            table,
            left: self.left,
            stretched: self.stretched,
        })
    }
}
