//! The structure of a table, as its layout takes it.

ghost use Rattle.std.specs.Prelude.{◌≡◌};

use crate::rows::TableRow;
use lay_units::{Sides, Unit};
use std::marker::Model;

/// A cell: the place of its box, its first row and column, how many of both it covers, from 1, and
/// the used widths of its borders in 1/64 px, from 0.
#[derive(Clone, Copy, Debug, PartialEq, Eq)]
pub struct TableCell {
    pub place: usize,
    pub row: u32,
    pub column: u32,
    pub rows: u32,
    pub columns: u32,
    pub borders: Sides,
}

/// What is between columns and between rows (CSS 2.2, 17.6.1), in 1/64 px, from 0. 0 where borders
/// collapse.
#[derive(Clone, Copy, Debug, PartialEq, Eq)]
pub struct Spacing {
    pub across: Unit,
    pub down: Unit,
}

/// The structure of a table. Its boxes are known by their places in the list of boxes of its
/// formatting context.
#[derive(Drop)]
pub struct TableGrid {
    pub(crate) table: usize,
    pub(crate) rows: Vec<TableRow>,
    pub(crate) cells: Vec<TableCell>,
    pub(crate) column_boxes: Vec<usize>,
    pub(crate) columns: u32,
    pub(crate) spacing: Spacing,
    pub(crate) collapses: bool,
    pub(crate) borders: Sides,
}

impl Model for TableGrid {
    ghost use Rattle.lay_table_grid.specs.TableGrid.{TableGridValue};
    ghost use Rattle.lay_table_grid.specs.GridBounds.{TableGridFits};

    ghost Value = { TableGridValue };

    ghost view = { λ g. record {
      table = g.table;
      rows = g.rows.items;
      cells = g.cells.items;
      column_boxes = g.column_boxes.items;
      columns = g.columns;
      spacing = g.spacing;
      collapses = g.collapses;
      borders = g.borders;
    } };

    ghost invariant = { λ g. TableGridFits (record {
      table = g.table;
      rows = g.rows.items;
      cells = g.cells.items;
      column_boxes = g.column_boxes.items;
      columns = g.columns;
      spacing = g.spacing;
      collapses = g.collapses;
      borders = g.borders;
    }) };
}

impl TableGrid {
    ghost use Rattle.std.specs.Prelude.{◌≡◌};
    ghost use Rattle.lay_table_grid.specs.GridBounds.{TableGridFits};

    /// The place of the table box.
    pub fn table(&self) -> usize
        ensures { result ≡ self.now.table }
    {
        self.table
    }

    /// The rows as they are drawn: those of the first header group first, those of the first footer
    /// group last.
    pub fn rows(&self) -> &[TableRow]
        ensures { result.now ≡ self.now.rows }
    {
        &self.rows
    }

    /// The cells, row by row.
    pub fn cells(&self) -> &[TableCell]
        ensures value { result.now ≡ self.now.cells }
        ensures fits { TableGridFits self.now }
    {
        &self.cells
    }

    /// For each column that a column or a column group stands for, the place of that box.
    pub fn column_boxes(&self) -> &[usize]
        ensures { result.now ≡ self.now.column_boxes }
    {
        &self.column_boxes
    }

    /// How many columns there are.
    pub fn columns(&self) -> u32
        ensures { result ≡ self.now.columns }
    {
        self.columns
    }

    /// What is between columns and between rows.
    pub fn spacing(&self) -> Spacing
        ensures value { result ≡ self.now.spacing }
        ensures fits { TableGridFits self.now }
    {
        self.spacing
    }

    /// Whether borders collapse.
    pub fn collapses(&self) -> bool
        ensures { result ≡ self.now.collapses }
    {
        self.collapses
    }

    /// The used border widths of the table box, in 1/64 px.
    pub fn borders(&self) -> Sides
        ensures value { result ≡ self.now.borders }
        ensures fits { TableGridFits self.now }
    {
        self.borders
    }
}
