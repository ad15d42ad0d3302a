//! Used widths, and sizes of replaced elements.

ghost use Rattle.std.specs.Prelude.{pos, ◌≤ℤ◌, IfSome};
ghost use Rattle.lay_units.specs.Units.{IsSize};
ghost use Rattle.lay_widths.specs.Lengths.{BlockFits, LenFits, LenIsSize};

use anyhow::Result;
use lay_case_reading::Row;
use lay_units::{BlockIn, Len, Unit};
use lay_widths::{BlockOut, ReplacedIn, replaced_size, solve_block, solve_float};
use std::alloc::Global;

/// What a row says of a block, in units.
#[derive(Drop)]
struct BlockRow {
    margin_left: Option<i16>,
    width: Option<u16>,
    margin_right: Option<i16>,
    min_width: u16,
    max_width: Option<u16>,
}

/// The used margins and width of a block.
pub(crate) fn of_block(alloc: Global, text: &str) -> Result<String> {
    let mut cells = Row::new(text);
    let row = block_row(&mut cells)?;
    cells.end()?;
    out(alloc, &solve_block(&block(&row)))
}

/// The used margins and width of a float, whose last two cells are its preferred minimum and its
/// preferred width.
pub(crate) fn of_float(alloc: Global, text: &str) -> Result<String> {
    let mut cells = Row::new(text);
    let row = block_row(&mut cells)?;
    let minimum = cells.number::<u16>()?;
    let preferred = cells.number::<u16>()?;
    cells.end()?;
    let minimum = Unit(i64::from(minimum));
    let preferred = Unit(i64::from(preferred));
    out(alloc, &solve_float(&block(&row), minimum, preferred))
}

/// The used width and height of a replaced element.
pub(crate) fn of_replaced(alloc: Global, text: &str) -> Result<String> {
    let mut cells = Row::new(text);
    let natural_width = cells.number()?;
    let natural_height = cells.number()?;
    let width = cells.number_or_none()?;
    let height = cells.number_or_none()?;
    let min_width = cells.number()?;
    let max_width = cells.number_or_none()?;
    let min_height = cells.number()?;
    let max_height = cells.number_or_none()?;
    cells.end()?;
    let used = replaced_size(&ReplacedIn {
        natural_width: natural(natural_width),
        natural_height: natural(natural_height),
        width: size(width),
        height: size(height),
        min_width: least(min_width),
        max_width: greatest(max_width),
        min_height: least(min_height),
        max_height: greatest(max_height),
    });
    let width = used.width.0;
    let height = used.height.0;
    Ok(format!(in alloc; "{width} {height}")?)
}

fn block_row(cells: &mut Row<'_>) -> Result<BlockRow> {
    Ok(BlockRow {
        margin_left: cells.number_or_none()?,
        width: cells.number_or_none()?,
        margin_right: cells.number_or_none()?,
        min_width: cells.number()?,
        max_width: cells.number_or_none()?,
    })
}

/// The block in one of 400 units, with borders of 2 and paddings of 8.
fn block(row: &BlockRow) -> BlockIn
    ensures { BlockFits result }
{
    BlockIn {
        containing_width: Unit(400),
        margin_left: margin(row.margin_left),
        border_left: Unit(2),
        padding_left: Unit(8),
        width: size(row.width),
        padding_right: Unit(8),
        border_right: Unit(2),
        margin_right: margin(row.margin_right),
        min_width: least(row.min_width),
        max_width: greatest(row.max_width),
    }
}

/// A natural size, which is from 1.
fn natural(v: u16) -> Unit
    ensures size { IsSize result.0 }
    ensures one { pos 1 ≤ℤ result.0 }
{
    Unit(i64::from(v.max(1)))
}

fn least(v: u16) -> Unit
    ensures { IsSize result.0 }
{
    Unit(i64::from(v))
}

fn greatest(v: Option<u16>) -> Option<Unit>
    ensures { IfSome result (λ u. IsSize u.0) }
{
    match v {
        Some(v) => Some(least(v)),
        None => None,
    }
}

fn margin(v: Option<i16>) -> Len
    ensures { LenFits result }
{
    match v {
        Some(v) => Len::Of(Unit(i64::from(v))),
        None => Len::Auto,
    }
}

fn size(v: Option<u16>) -> Len
    ensures { LenIsSize result }
{
    match v {
        Some(v) => Len::Of(Unit(i64::from(v))),
        None => Len::Auto,
    }
}

fn out(alloc: Global, used: &BlockOut) -> Result<String> {
    let left = used.margin_left.0;
    let width = used.width.0;
    let right = used.margin_right.0;
    Ok(format!(in alloc; "{left} {width} {right}")?)
}
