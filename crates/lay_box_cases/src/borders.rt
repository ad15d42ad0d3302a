//! Collapsed borders that meet at edges, each with its style, its width in units, the kind of element that it is of, and that
//! element's row and column.

ghost use Rattle.std.specs.Prelude.{◌<◌};

use anyhow::{Result, bail};
use lay_borders::{
    BorderStyle, Cand, CandList, CandLists, GridBorders, Origin, edge_width, resolve, winner,
};
use lay_case_reading::{Row, ample};
use lay_units::Unit;
use std::alloc::Global;

/// The border that wins where these meet.
pub(crate) fn winning(alloc: Global, text: &str) -> Result<String> {
    let borders = borders(alloc, text)?;
    if borders.is_empty() {
        bail!("no border");
    }
    let border = winner(&borders);
    let style = word_of_style(border.style);
    let width = border.width.0;
    let origin = word_of_origin(border.origin);
    let row = border.row;
    let column = border.column;
    Ok(format!(in alloc; "{style} {width} {origin} {row} {column}")?)
}

/// How wide the border of each edge of a grid is drawn.
pub(crate) fn resolved(alloc: Global, text: &str) -> Result<String> {
    let Some((size, edges)) = text.split_once(';') else {
        bail!("no size of a grid: {text}");
    };
    let mut size = Row::new(size);
    let rows = size.number()?;
    let columns = size.number()?;
    size.end()?;
    let grid = GridBorders {
        rows,
        columns,
        edges: CandLists::new(meeting(alloc, edges)?),
    };
    let resolved = ample(resolve(alloc, &grid))?;
    let mut out = String::new(alloc);
    for edge in resolved.edges.as_slice() {
        push_edge(&mut out, *edge)?;
    }
    Ok(out)
}

/// The borders that meet at edges.
fn meeting(alloc: Global, text: &str) -> Result<Vec<CandList>> {
    let mut edges = Vec::new(alloc);
    for edge in text.split(';') {
        edges.push(CandList::new(borders(alloc, edge)?))?;
    }
    Ok(edges)
}

fn push_edge(out: &mut String, edge: Option<Cand>) -> Result<()> {
    if !out.is_empty() {
        out.push(' ')?;
    }
    let width = edge_width(edge).0;
    match edge {
        Some(_) => write!(out, "{width}")?,
        None => out.push_str("none")?,
    }
    Ok(())
}

/// The borders that meet at an edge, none where the text is blank.
fn borders(alloc: Global, text: &str) -> Result<Vec<Cand>> {
    let mut borders = Vec::new(alloc);
    if text.trim().is_empty() {
        return Ok(borders);
    }
    for border in text.split(',') {
        borders.push(self::border(Row::new(border))?)?;
    }
    Ok(borders)
}

fn border(mut cells: Row<'_>) -> Result<Cand> {
    let style = style(&mut cells)?;
    let width: u16 = cells.number()?;
    let origin = origin(&mut cells)?;
    let row = cells.number()?;
    let column = cells.number()?;
    cells.end()?;
    Ok(Cand {
        style,
        width: Unit(i64::from(width)),
        origin,
        row,
        column,
    })
}

fn style(cells: &mut Row<'_>) -> Result<BorderStyle> {
    Ok(match cells.word() {
        Some("none") => BorderStyle::None,
        Some("hidden") => BorderStyle::Hidden,
        Some("dotted") => BorderStyle::Dotted,
        Some("dashed") => BorderStyle::Dashed,
        Some("solid") => BorderStyle::Solid,
        Some("double") => BorderStyle::Double,
        Some("groove") => BorderStyle::Groove,
        Some("ridge") => BorderStyle::Ridge,
        Some("inset") => BorderStyle::Inset,
        Some("outset") => BorderStyle::Outset,
        _ => bail!("no style of a border"),
    })
}

fn word_of_style(style: BorderStyle) -> &'static str {
    match style {
        BorderStyle::None => "none",
        BorderStyle::Hidden => "hidden",
        BorderStyle::Dotted => "dotted",
        BorderStyle::Dashed => "dashed",
        BorderStyle::Solid => "solid",
        BorderStyle::Double => "double",
        BorderStyle::Groove => "groove",
        BorderStyle::Ridge => "ridge",
        BorderStyle::Inset => "inset",
        BorderStyle::Outset => "outset",
    }
}

fn origin(cells: &mut Row<'_>) -> Result<Origin> {
    Ok(match cells.word() {
        Some("cell") => Origin::Cell,
        Some("row") => Origin::Row,
        Some("row-group") => Origin::RowGroup,
        Some("column") => Origin::Column,
        Some("column-group") => Origin::ColumnGroup,
        Some("table") => Origin::Table,
        _ => bail!("no element that has a border"),
    })
}

fn word_of_origin(origin: Origin) -> &'static str {
    match origin {
        Origin::Cell => "cell",
        Origin::Row => "row",
        Origin::RowGroup => "row-group",
        Origin::Column => "column",
        Origin::ColumnGroup => "column-group",
        Origin::Table => "table",
    }
}
