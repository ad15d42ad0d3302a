//! Lists of the records that the calls take and answer.

ghost use Rattle.std.specs.Prelude.{◌≡◌};

use crate::automatic::bounds::{Bound, GroupSpan, SpanCell};
use std::marker::Model;

/// The bounds of columns, from the first on.
#[derive(Drop)]
pub struct BoundList {
    items: Vec<Bound>,
}

impl Model for BoundList {
    ghost use Rattle.std.specs.Prelude.{List};
    ghost use Rattle.lay_grid.specs.declared.automatic.bounds.Bound.{Bound};

    ghost Value = { List Bound };

    ghost view = { λ l. l.items.items };
}

impl BoundList {
    /// The list of these bounds, which is taken over without a copy.
    pub fn new(items: Vec<Bound>) -> BoundList
        ensures { result ≡ items.items }
    {
        BoundList { items }
    }

    /// The bounds, in order.
    pub fn as_slice(&self) -> &[Bound]
        ensures { result.now ≡ self.now }
    {
        self.items.as_slice()
    }
}

/// Cells, row by row.
#[derive(Drop)]
pub struct SpanCells {
    items: Vec<SpanCell>,
}

impl Model for SpanCells {
    ghost use Rattle.std.specs.Prelude.{List};
    ghost use Rattle.lay_grid.specs.declared.automatic.bounds.SpanCell.{SpanCell};

    ghost Value = { List SpanCell };

    ghost view = { λ l. l.items.items };
}

impl SpanCells {
    /// The list of these cells, which is taken over without a copy.
    pub fn new(items: Vec<SpanCell>) -> SpanCells
        ensures { result ≡ items.items }
    {
        SpanCells { items }
    }

    /// The cells, in order.
    pub fn as_slice(&self) -> &[SpanCell]
        ensures { result.now ≡ self.now }
    {
        self.items.as_slice()
    }
}

/// Column groups, in order.
#[derive(Drop)]
pub struct GroupSpans {
    items: Vec<GroupSpan>,
}

impl Model for GroupSpans {
    ghost use Rattle.std.specs.Prelude.{List};
    ghost use Rattle.lay_grid.specs.declared.automatic.bounds.GroupSpan.{GroupSpan};

    ghost Value = { List GroupSpan };

    ghost view = { λ l. l.items.items };
}

impl GroupSpans {
    /// The list of these groups, which is taken over without a copy.
    pub fn new(items: Vec<GroupSpan>) -> GroupSpans
        ensures { result ≡ items.items }
    {
        GroupSpans { items }
    }

    /// The groups, in order.
    pub fn as_slice(&self) -> &[GroupSpan]
        ensures { result.now ≡ self.now }
    {
        self.items.as_slice()
    }
}
