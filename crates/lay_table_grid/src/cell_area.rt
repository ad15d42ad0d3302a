//! The slots that a cell covers (CSS 2.2, 17.5).

/// The slots that a cell covers: from which row and column on, each counted from 0, and how many of both, from 1.
#[derive(Clone, Copy)]
pub struct CellArea {
    pub row: u32,
    pub column: u32,
    pub rows: u32,
    pub columns: u32,
}
