//! Rows, cells and slots of a table (CSS 2.2, 17.5).

use crate::lists::{SlotList, SpanList};

/// How many columns and rows a cell spans, from 1.
#[derive(Clone, Copy)]
pub struct Span {
    pub columns: u32,
    pub rows: u32,
}

/// A row: the number of its row group, and its cells. The rows of a group stand together.
#[derive(Drop)]
pub struct RowSpec {
    pub group: u32,
    pub cells: SpanList,
}

/// The rows that a cell covers, from `row` to before `end`, and how many columns.
#[derive(Clone, Copy)]
pub struct Area {
    pub row: usize,
    pub end: usize,
    pub columns: u32,
}

/// A cell that stands: what it covers, from its leftmost column on.
#[derive(Clone, Copy)]
pub struct Cell {
    pub area: Area,
    pub left: usize,
}

/// A slot of the grid, and the cell that covers it, by its number from 0 among the cells of all
/// rows.
#[derive(Clone, Copy)]
pub struct Slot {
    pub row: u32,
    pub column: u32,
    pub cell: u32,
}

/// The slots that cells cover, and the number of columns that the cells need.
#[derive(Drop)]
pub struct Grid {
    pub slots: SlotList,
    pub columns: u32,
}
