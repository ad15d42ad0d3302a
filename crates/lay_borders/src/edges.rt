//! The collapsed borders of all edges of a table's grid (CSS 2.2, 17.6.2).

ghost use Rattle.std.specs.Prelude.{IfOk};
ghost use Rattle.lay_borders.specs.Edges.{AreResolved, IsEdge};

use crate::candidate::Cand;
use crate::conflict::winner;
use crate::lists::{CandLists, CandOptions};
use lay_units::NoMemory;
use std::alloc::Global;

/// The borders that meet at the edges of a grid of so many rows and columns. First come the
/// horizontal edges row by row, from above the first row to below the last, and then the vertical
/// ones row by row, from left of the first column to right of the last. At an edge inside a cell no
/// borders meet. It is what `resolve` takes.
#[derive(Drop)]
pub struct GridBorders {
    pub rows: u32,
    pub columns: u32,
    pub edges: CandLists,
}

/// The collapsed border of each edge of a grid, in the order of `GridBorders`; None where none is
/// there.
#[derive(Drop)]
pub struct EdgeGrid {
    pub edges: CandOptions,
}

/// The collapsed border of each edge. No program calls it: lay_table_grid asks `edge_border` of one edge at a time.
pub fn resolve(alloc: Global, grid: &GridBorders) -> Result<EdgeGrid, NoMemory>
    ensures { IfOk result (λ resolved. AreResolved grid.now.edges resolved.edges) }
{
    let mut edges = Vec::new(alloc);
    for borders in grid.edges.as_slice() {
        edges.push(edge_border(borders.as_slice()))?;
    }
    Ok(EdgeGrid {
        edges: CandOptions::new(edges),
    })
}

/// The border of an edge where these meet, if any do.
pub fn edge_border(borders: &[Cand]) -> Option<Cand>
    ensures { IsEdge borders.now result }
{
    if borders.is_empty() {
        return None;
    }
    Some(winner(borders))
}
