//! The bounds and the widths of the columns of tables in the automatic layout.

ghost use Rattle.std.specs.Prelude.{◌≡◌, ◌≤◌, length, All, IfOk};
ghost use Rattle.lay_units.specs.Units.{IsSize};
ghost use Rattle.lay_grid.specs.Automatic.AutoColumns.{sum_min};
ghost use Rattle.lay_grid.specs.Automatic.Fit.{BoundFits, CellFits, SpanFits};

use crate::lengths::{length, lengths_or_none, section, two_lengths};
use anyhow::{Result, bail};
use lay_case_reading::{ample, spanned};
use lay_grid::WidthOptions;
use lay_grid::automatic::{
    Bound, BoundList, BoundsIn, GroupSpan, GroupSpans, SpanCell, SpanCells, column_bounds,
    columns_auto,
};
use lay_units::Unit;
use std::alloc::Global;

/// The bounds of a table's columns, and their widths, or `none` where there is too little space.
pub(crate) fn answer(alloc: Global, text: &str) -> Result<String> {
    let (table, rest) = section(text)?;
    let (given, rest) = section(rest)?;
    let (cells, groups) = section(rest)?;
    let (space, spacing) = two_lengths(table)?;
    let given = lengths_or_none(alloc, given)?;
    let cells = span_cells(alloc, cells, given.len())?;
    let groups = group_spans(alloc, groups, given.len())?;
    let asked = BoundsIn {
        given: WidthOptions::new(given),
        cells: SpanCells::new(cells),
        groups: GroupSpans::new(groups),
        spacing,
    };
    let bounds = ample(column_bounds(alloc, &asked))?;
    out(alloc, &bounds, space)
}

fn span_cells(alloc: Global, text: &str, columns: usize) -> Result<Vec<SpanCell>>
    ensures { IfOk result (λ v. All (CellFits columns) v.items) }
{
    let mut cells = Vec::new(alloc);
    for word in text.split_whitespace() {
        let (place, span, rest) = spanned(word, columns)?;
        let Some((min, max)) = rest.split_once('/') else {
            bail!("no maximum: {word}");
        };
        cells.push(SpanCell {
            column: u32::from(place),
            span: u32::from(span),
            min: length(min)?,
            max: length(max)?,
        })?;
    }
    Ok(cells)
}

fn group_spans(alloc: Global, text: &str, columns: usize) -> Result<Vec<GroupSpan>>
    ensures { IfOk result (λ v. All (SpanFits columns) v.items) }
{
    let mut groups = Vec::new(alloc);
    for word in text.split_whitespace() {
        let (place, span, rest) = spanned(word, columns)?;
        groups.push(GroupSpan {
            column: u32::from(place),
            span: u32::from(span),
            width: length(rest)?,
        })?;
    }
    Ok(groups)
}

fn out(alloc: Global, bounds: &BoundList, space: Unit) -> Result<String>
    requires { IsSize space.0 }
{
    let mut out = String::new(alloc);
    for bound in bounds.as_slice() {
        let min = bound.min.0;
        let max = bound.max.0;
        write!(out, "{min}/{max} ")?;
    }
    out.push('|')?;
    let bounds = fitting(alloc, bounds.as_slice())?;
    if minimums(bounds.as_slice()) > i128::from(space.0) {
        out.push_str(" none")?;
        return Ok(out);
    }
    for width in ample(columns_auto(alloc, &BoundList::new(bounds), space))?.as_slice() {
        let units = width.0;
        write!(out, " {units}")?;
    }
    Ok(out)
}

/// The same bounds, which a space can be shared by.
fn fitting(alloc: Global, bounds: &[Bound]) -> Result<Vec<Bound>>
    ensures few { IfOk result (λ v. length v.items ≤ 255) }
    ensures fit { IfOk result (λ v. All BoundFits v.items) }
{
    let mut fitting = Vec::new(alloc);
    for bound in bounds {
        if fitting.len() == 255 {
            bail!("too many columns");
        }
        fitting.push(in_order(*bound)?)?;
    }
    Ok(fitting)
}

fn in_order(bound: Bound) -> Result<Bound>
    ensures { IfOk result BoundFits }
{
    if bound.min.0 < 0 || bound.max.0 < bound.min.0 || bound.max.0 > 65535 {
        bail!("bounds that aren't in order");
    }
    Ok(bound)
}

/// The minimums together.
fn minimums(bounds: &[Bound]) -> i128
    requires few { length bounds.now ≤ 255 }
    requires fit { All BoundFits bounds.now }
    ensures { result ≡ sum_min bounds.now }
{
    let mut sum = 0;
    for bound in bounds {
        sum = sum + i128::from(bound.min.0);
    }
    sum
}
