//! How wide the widest edge on a side is, and its halves (CSS 2.2, 17.6.2).

ghost use Rattle.std.specs.Prelude.{◌≡◌, ◌⊎◌, ◌+◌, ◌≤ℤ◌, ◌^◌, ◌<◌, ◌≤◌, length, IfOk};
ghost use Rattle.lay_units.specs.Units.{IsUsedSize};
ghost use Rattle.lay_borders.specs.Halves.{first_half, second_half};
ghost use Rattle.lay_table_grid.specs.MeetingBorders.{meeting_above, meeting_left};
ghost use Rattle.lay_table_grid.specs.Pass.UsedBorders.{AreUsed};
ghost use Rattle.lay_table_grid.specs.TableBorders.{IsEdgeWidth, IsWidest};

use crate::edges::Edges;
use crate::meeting::{put_meeting_above, put_meeting_left};
use lay_borders::{Cand, edge_border, edge_width};
use lay_units::{NoMemory, Unit, half};

/// The greatest width of the edges above so many slots of a row. `borders` is room to work in.
pub fn widest_above(
    borders: &mut Vec<Cand>,
    edges: &Edges<'_>,
    row: usize,
    first: usize,
    count: u32,
) -> Result<Unit, NoMemory>
    requires row { row ≤ length edges.now.rows }
    requires some { 0 < count }
    requires few { first + count < 2 ^ 63 }
    ensures widest { IfOk result (λ w. IsWidest (λ k. meeting_above edges.now row (first + k)) count w.0) }
    ensures size { IfOk result (λ w. IsUsedSize w.0) }
{
    let mut widest = width_above(borders, edges, row, first)?;
    for k in 1..count as usize {
        let width = width_above(borders, edges, row, first + k)?;
        widest = wider(widest, width);
    }
    Ok(widest)
}

fn width_above(
    borders: &mut Vec<Cand>,
    edges: &Edges<'_>,
    row: usize,
    column: usize,
) -> Result<Unit, NoMemory>
    requires row { row ≤ length edges.now.rows }
    ensures width { IfOk result (λ w. IsEdgeWidth (meeting_above edges.now row column) w.0) }
    ensures size { IfOk result (λ w. IsUsedSize w.0) }
{
    put_meeting_above(borders, edges, row, column)?;
    Ok(width_of(borders))
}

/// The greatest width of the edges on the left of so many slots of a column.
pub fn widest_left(
    borders: &mut Vec<Cand>,
    edges: &Edges<'_>,
    first: usize,
    column: usize,
    count: u32,
) -> Result<Unit, NoMemory>
    requires rows { first + count ≤ length edges.now.rows }
    requires few { first + count < 2 ^ 63 }
    requires some { 0 < count }
    ensures widest { IfOk result (λ w. IsWidest (λ k. meeting_left edges.now (first + k) column) count w.0) }
    ensures size { IfOk result (λ w. IsUsedSize w.0) }
{
    let mut widest = width_left(borders, edges, first, column)?;
    for k in 1..count as usize {
        let width = width_left(borders, edges, first + k, column)?;
        widest = wider(widest, width);
    }
    Ok(widest)
}

fn width_left(
    borders: &mut Vec<Cand>,
    edges: &Edges<'_>,
    row: usize,
    column: usize,
) -> Result<Unit, NoMemory>
    requires row { row < length edges.now.rows }
    ensures width { IfOk result (λ w. IsEdgeWidth (meeting_left edges.now row column) w.0) }
    ensures size { IfOk result (λ w. IsUsedSize w.0) }
{
    put_meeting_left(borders, edges, row, column)?;
    Ok(width_of(borders))
}

/// How wide the border of an edge is drawn where these meet.
fn width_of(borders: &[Cand]) -> Unit
    requires { AreUsed borders.now }
    ensures width { IsEdgeWidth borders.now result.0 }
    ensures size { IsUsedSize result.0 }
{
    edge_width(edge_border(borders))
}

fn wider(a: Unit, b: Unit) -> Unit
    ensures one_of { (result ≡ a) ⊎ (result ≡ b) }
    ensures first { a.0 ≤ℤ result.0 }
    ensures second { b.0 ≤ℤ result.0 }
    ensures size { IsUsedSize a.0 → IsUsedSize b.0 → IsUsedSize result.0 }
{
    if a.0 < b.0 { b } else { a }
}

/// The half of a width on the left or top side of an edge.
pub fn first_half(width: Unit) -> Unit
    requires { IsUsedSize width.0 }
    ensures value { result.0 ≡ first_half width.0 }
    ensures size { IsUsedSize result.0 }
{
    half(width).0
}

/// The half of a width on the right or bottom side of an edge.
pub fn second_half(width: Unit) -> Unit
    requires { IsUsedSize width.0 }
    ensures value { result.0 ≡ second_half width.0 }
    ensures size { IsUsedSize result.0 }
{
    half(width).1
}
