//! Heights.

ghost use Rattle.std.specs.Prelude.{IfSome};
ghost use Rattle.lay_units.specs.Units.{IsPosition};

use anyhow::Result;
use lay_case_reading::Row;
use lay_heights::{FlowEnds, auto_height_flow, auto_height_root, with_min_max};
use lay_units::Unit;
use std::alloc::Global;

/// The auto height of a block in flow.
pub(crate) fn of_flow(alloc: Global, text: &str) -> Result<String> {
    let mut cells = Row::new(text);
    let top = cells.number()?;
    let line = cells.number_or_none()?;
    let margin = cells.number_or_none()?;
    let border = cells.number_or_none()?;
    cells.end()?;
    let ends = FlowEnds {
        top: px(top),
        line: px_or_none(line),
        margin: px_or_none(margin),
        border: px_or_none(border),
    };
    out(alloc, auto_height_flow(&ends))
}

/// The auto height of the root of a block formatting context.
pub(crate) fn of_root(alloc: Global, text: &str) -> Result<String> {
    let mut cells = Row::new(text);
    let top = cells.number()?;
    let end = cells.number()?;
    let floats = cells.number_or_none()?;
    cells.end()?;
    out(
        alloc,
        auto_height_root(px(top), px(end), px_or_none(floats)),
    )
}

/// A height within its bounds.
pub(crate) fn bounded(alloc: Global, text: &str) -> Result<String> {
    let mut cells = Row::new(text);
    let height = cells.number()?;
    let min = cells.number()?;
    let max = cells.number_or_none()?;
    cells.end()?;
    out(alloc, with_min_max(px(height), px(min), px_or_none(max)))
}

fn px(v: i16) -> Unit
    ensures { IsPosition result.0 }
{
    Unit(i64::from(v) * 64)
}

fn px_or_none(v: Option<i16>) -> Option<Unit>
    ensures { IfSome result (λ u. IsPosition u.0) }
{
    match v {
        Some(v) => Some(px(v)),
        None => None,
    }
}

fn out(alloc: Global, height: Unit) -> Result<String> {
    let px = height.0 / 64;
    Ok(format!(in alloc; "{px}")?)
}
