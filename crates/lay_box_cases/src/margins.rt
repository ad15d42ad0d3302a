//! Margins that collapse, and runs of adjoining ones.

ghost use Rattle.std.specs.Prelude.{◌<◌};

use anyhow::{Result, bail};
use lay_case_reading::{Row, ample};
use lay_margins::{Edge, Strut, runs};
use lay_units::Unit;
use std::alloc::Global;

/// What three margins collapse to, whether they are added one by one or the last two are joined
/// with the first.
pub(crate) fn collapsed(alloc: Global, text: &str) -> Result<String> {
    let mut cells = Row::new(text);
    let first = px(cells.number()?);
    let second = px(cells.number()?);
    let third = px(cells.number()?);
    cells.end()?;
    let one_by_one = Strut::zero().add(first).add(second).add(third);
    let later = Strut::zero().add(third).add(second);
    let joined = later.join(Strut::zero().add(first));
    let sum = one_by_one.sum().0 / 64;
    let other = joined.sum().0 / 64;
    if sum != other {
        bail!("joined they collapse to {other}, not to {sum}");
    }
    Ok(format!(in alloc; "{sum}")?)
}

/// The runs of a list of edges, each with the place of its first edge and the number of its edges.
pub(crate) fn runs_of(alloc: Global, text: &str) -> Result<String> {
    let edges = edges(alloc, text)?;
    if edges.len() > 1000 {
        bail!("too many edges");
    }
    let list = ample(runs(alloc, &edges))?;
    let mut out = String::new(alloc);
    for run in list.as_slice() {
        if !out.is_empty() {
            out.push(' ')?;
        }
        let first = run.first;
        let len = run.len;
        write!(out, "{first}+{len}")?;
    }
    Ok(out)
}

fn edges(alloc: Global, text: &str) -> Result<Vec<Edge>> {
    let mut edges = Vec::new(alloc);
    for word in text.split_whitespace() {
        edges.push(match word {
            "margin" => Edge::Margin(px(20)),
            "height" => Edge::Solid(px(10)),
            "nothing-high" => Edge::Solid(px(0)),
            "mark" => Edge::Mark(2),
            "clear" => Edge::Clear(3),
            _ => bail!("no edge: {word}"),
        })?;
    }
    Ok(edges)
}

fn px(v: i16) -> Unit {
    Unit(i64::from(v) * 64)
}
