//! Lists of the records that the calls take and answer.

ghost use Rattle.std.specs.Prelude.{◌≡◌};

use crate::cells::{Slot, Span};
use crate::columns::FirstCell;
use crate::heights::RowCell;
use lay_units::Unit;
use std::marker::Model;

/// The spans of the cells of a row, in order.
#[derive(Drop)]
pub struct SpanList {
    items: Vec<Span>,
}

impl Model for SpanList {
    ghost use Rattle.std.specs.Prelude.{List};
    ghost use Rattle.lay_grid.specs.declared.cells.Span.{Span};

    ghost Value = { List Span };

    ghost view = { λ l. l.items.items };
}

impl SpanList {
    /// The list of these spans, which is taken over without a copy.
    pub fn new(items: Vec<Span>) -> SpanList
        ensures { result ≡ items.items }
    {
        SpanList { items }
    }

    /// The spans, in order.
    pub fn as_slice(&self) -> &[Span]
        ensures { result.now ≡ self.now }
    {
        self.items.as_slice()
    }
}

/// Slots, cell by cell, and in a cell row by row.
#[derive(Drop)]
pub struct SlotList {
    items: Vec<Slot>,
}

impl Model for SlotList {
    ghost use Rattle.std.specs.Prelude.{List};
    ghost use Rattle.lay_grid.specs.declared.cells.Slot.{Slot};

    ghost Value = { List Slot };

    ghost view = { λ l. l.items.items };
}

impl SlotList {
    /// The list of these slots, which is taken over without a copy.
    pub fn new(items: Vec<Slot>) -> SlotList
        ensures { result ≡ items.items }
    {
        SlotList { items }
    }

    /// The slots, in order.
    pub fn as_slice(&self) -> &[Slot]
        ensures { result.now ≡ self.now }
    {
        self.items.as_slice()
    }
}

/// Cells of the first row, in order.
#[derive(Drop)]
pub struct FirstCells {
    items: Vec<FirstCell>,
}

impl Model for FirstCells {
    ghost use Rattle.std.specs.Prelude.{List};
    ghost use Rattle.lay_grid.specs.declared.columns.FirstCell.{FirstCell};

    ghost Value = { List FirstCell };

    ghost view = { λ l. l.items.items };
}

impl FirstCells {
    /// The list of these cells, which is taken over without a copy.
    pub fn new(items: Vec<FirstCell>) -> FirstCells
        ensures { result ≡ items.items }
    {
        FirstCells { items }
    }

    /// The cells, in order.
    pub fn as_slice(&self) -> &[FirstCell]
        ensures { result.now ≡ self.now }
    {
        self.items.as_slice()
    }
}

/// Cells, in any order.
#[derive(Drop)]
pub struct RowCells {
    items: Vec<RowCell>,
}

impl Model for RowCells {
    ghost use Rattle.std.specs.Prelude.{List};
    ghost use Rattle.lay_grid.specs.declared.heights.RowCell.{RowCell};

    ghost Value = { List RowCell };

    ghost view = { λ l. l.items.items };
}

impl RowCells {
    /// The list of these cells, which is taken over without a copy.
    pub fn new(items: Vec<RowCell>) -> RowCells
        ensures { result ≡ items.items }
    {
        RowCells { items }
    }

    /// The cells, in order.
    pub fn as_slice(&self) -> &[RowCell]
        ensures { result.now ≡ self.now }
    {
        self.items.as_slice()
    }
}

/// The widths of columns, in order, each None where it has none.
#[derive(Drop)]
pub struct WidthOptions {
    items: Vec<Option<Unit>>,
}

impl Model for WidthOptions {
    ghost use Rattle.std.specs.Prelude.{List, Option};
    ghost use Rattle.lay_units.specs.declared.length.Unit.{Unit};

    ghost Value = { List (Option Unit) };

    ghost view = { λ l. l.items.items };
}

impl WidthOptions {
    /// The list of these widths, which is taken over without a copy.
    pub fn new(items: Vec<Option<Unit>>) -> WidthOptions
        ensures { result ≡ items.items }
    {
        WidthOptions { items }
    }

    /// The widths, in order.
    pub fn as_slice(&self) -> &[Option<Unit>]
        ensures { result.now ≡ self.now }
    {
        self.items.as_slice()
    }
}
