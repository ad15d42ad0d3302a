//! The edges of a table's grid, and the elements whose borders end at them (CSS 2.2, 17.6.2.1).

ghost use Rattle.std.specs.Prelude.{◌≡◌, ◌<◌, length, All, IfOk, IfSome};
ghost use Rattle.lay_table_grid.specs.Pass.EdgeBounds.{IsBorderCounted};
ghost use Rattle.lay_table_grid.specs.MeetingBorders.{column_element, column_group_element, covering};
ghost use Rattle.lay_table_grid.specs.MeetingBorders.{covering_in, group_element};
ghost use Rattle.lay_table_grid.specs.MeetingBorders.{is_inside_column_group, is_inside_group};
ghost use Rattle.lay_table_grid.specs.MeetingBorders.{item as item_of, row_element, table_element};

use crate::elements::Element;
use crate::groups::{column_groups, row_groups};
use crate::kinds::{is_column_at, is_column_group_at, is_row_group_at};
use crate::parts::Parts;
use crate::placed::PlacedCell;
use crate::rows::TableRow;
use crate::runs::{are_one, item, item_before, run_starts};
use crate::slots::{SlotRow, slot_rows};
use lay_borders::Origin;
use lay_box_tree::BoxNode;
use lay_units::NoMemory;
use std::alloc::Global;
use std::marker::Model;

/// A table as its edges are seen: beside its parts, which cell covers each slot, what each row and
/// each column stands in, and where that begins.
#[derive(Drop)]
pub struct Edges<'a> {
    boxes: &'a [BoxNode],
    table: usize,
    rows: &'a [TableRow],
    cells: &'a [PlacedCell],
    column_boxes: &'a [usize],
    columns: u32,
    slots: Vec<SlotRow>,
    groups: Vec<usize>,
    group_starts: Vec<u32>,
    column_groups: Vec<usize>,
    column_group_starts: Vec<u32>,
}

impl<'a> Model for Edges<'a> {
    ghost use Rattle.lay_table_grid.specs.TableParts.{TableParts};
    ghost use Rattle.lay_table_grid.specs.Pass.EdgeBounds.{AreKnownLines};

    ghost Value = { TableParts };

    ghost view = { λ e. record {
      boxes = e.boxes.now;
      table = e.table;
      rows = e.rows.now;
      cells = e.cells.now;
      column_boxes = e.column_boxes.now;
      columns = e.columns;
    } };

    ghost invariant = { λ e. AreKnownLines
        (record {
          boxes = e.boxes.now;
          table = e.table;
          rows = e.rows.now;
          cells = e.cells.now;
          column_boxes = e.column_boxes.now;
          columns = e.columns;
        })
        (record {
          slots = e.slots.items;
          groups = e.groups.items;
          group_starts = e.group_starts.items;
          column_groups = e.column_groups.items;
          column_group_starts = e.column_group_starts.items;
        }) };
}

impl<'a> Edges<'a> {
    /// The edges of a table.
    pub fn new(alloc: Global, parts: &'a Parts<'_>) -> Result<Edges<'a>, NoMemory>
        ensures { IfOk result (λ edges. edges ≡ parts.now) }
    {
        let slots = slot_rows(alloc, &parts.cells, parts.rows.len())?;
        let groups = row_groups(alloc, parts)?;
        let group_starts = run_starts(alloc, &groups)?;
        let column_groups = column_groups(alloc, parts)?;
        let column_group_starts = run_starts(alloc, &column_groups)?;
        Ok(Edges {
            boxes: parts.boxes,
            table: parts.table,
            rows: &parts.rows,
            cells: &parts.cells,
            column_boxes: &parts.column_boxes,
            columns: parts.columns,
            slots,
            groups,
            group_starts,
            column_groups,
            column_group_starts,
        })
    }

    /// The boxes of the table.
    pub(crate) fn boxes(&self) -> &[BoxNode]
        ensures { result.now ≡ self.now.boxes }
    {
        self.boxes
    }

    /// How many rows there are.
    pub(crate) fn row_count(&self) -> usize
        ensures { result ≡ length self.now.rows }
    {
        self.rows.len()
    }

    /// How many columns there are.
    pub(crate) fn columns(&self) -> u32
        ensures { result ≡ self.now.columns }
    {
        self.columns
    }

    /// The same as a place.
    pub(crate) fn column_count(&self) -> usize
        ensures { result ≡ self.now.columns }
    {
        self.columns as usize
    }

    /// The cell that covers the slot of a row and a column, if there are both and one does.
    pub(crate) fn cell_in(&self, row: Option<usize>, column: Option<usize>) -> Option<PlacedCell>
        requires { IfSome row (λ r. r < length self.now.rows) }
        ensures cell { result ≡ covering_in self.now.cells row column }
        ensures counted { IfSome result IsBorderCounted }
    {
        match (row, column) {
            (Some(row), Some(column)) => self.cell_at(row, column),
            _ => None,
        }
    }

    fn cell_at(&self, row: usize, column: usize) -> Option<PlacedCell>
        requires { row < length self.now.rows }
        ensures cell { result ≡ covering self.now.cells row column }
        ensures counted { IfSome result IsBorderCounted }
    {
        picked(self.cells, self.slots[row].at(column))
    }

    /// The row with a number.
    pub(crate) fn row_element(&self, row: Option<usize>) -> Option<Element>
        ensures { result ≡ row_element self.now row }
    {
        let number = row?;
        let row = self.rows.get(number)?;
        Some(Element {
            place: row.place,
            origin: Origin::Row,
            row: number as u32,
            column: 0,
        })
    }

    /// The row group of the row with a number, if it is in one.
    pub(crate) fn group_element(&self, row: Option<usize>) -> Option<Element>
        ensures { result ≡ group_element self.now row }
    {
        let number = row?;
        let place = item(&self.groups, number)?;
        if !is_row_group_at(self.boxes, place) {
            return None;
        }
        Some(Element {
            place,
            origin: Origin::RowGroup,
            row: self.group_starts[number],
            column: 0,
        })
    }

    /// The column with a number, if it has a box of its own kind.
    pub(crate) fn column_element(&self, column: Option<usize>) -> Option<Element>
        ensures { result ≡ column_element self.now column }
    {
        let number = column?;
        let place = item(self.column_boxes, number)?;
        if !is_column_at(self.boxes, place) {
            return None;
        }
        Some(Element {
            place,
            origin: Origin::Column,
            row: 0,
            column: number as u32,
        })
    }

    /// The column group of the column with a number, if it is in one.
    pub(crate) fn column_group_element(&self, column: Option<usize>) -> Option<Element>
        ensures { result ≡ column_group_element self.now column }
    {
        let number = column?;
        let place = item(&self.column_groups, number)?;
        if !is_column_group_at(self.boxes, place) {
            return None;
        }
        Some(Element {
            place,
            origin: Origin::ColumnGroup,
            row: 0,
            column: self.column_group_starts[number],
        })
    }

    /// Whether a row and the one above it are in one group.
    pub(crate) fn is_inside_group(&self, row: usize) -> bool
        ensures { result ≡ is_inside_group self.now row }
    {
        are_one(item_before(&self.groups, row), item(&self.groups, row))
    }

    /// Whether a column and the one on its left are in one group.
    pub(crate) fn is_inside_column_group(&self, column: usize) -> bool
        ensures { result ≡ is_inside_column_group self.now column }
    {
        let groups = &self.column_groups;
        are_one(item_before(groups, column), item(groups, column))
    }

    /// The table.
    pub(crate) fn table_element(&self) -> Option<Element>
        ensures { result ≡ table_element self.now }
    {
        Some(Element {
            place: self.table,
            origin: Origin::Table,
            row: 0,
            column: 0,
        })
    }
}

/// The cell with a number, if there are both.
fn picked(cells: &[PlacedCell], number: Option<u32>) -> Option<PlacedCell>
    requires { All IsBorderCounted cells.now }
    ensures cell { result ≡ item_of cells.now number }
    ensures counted { IfSome result IsBorderCounted }
{
    match cells.get(number? as usize) {
        Some(cell) => Some(*cell),
        None => None,
    }
}
