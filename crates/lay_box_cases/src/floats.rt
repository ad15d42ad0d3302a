//! Floats of a block formatting context, and what is asked of them, in px: terms with commas
//! between them, and for each term its answer.
//!
//! - `left WIDTH HEIGHT` or `right WIDTH HEIGHT` is a float, and its answer is its corner. Behind
//!   it may stand `in LEFT RIGHT`, the edges of its containing block (0 and 800), `from TOP`, the
//!   top that it keeps below (0), and `clear SIDE`.
//! - `line TOP HEIGHT` is answered with the edges of the room between 0 and 800.
//! - `solid WIDTH HEIGHT TOP` is a box that may not overlap floats, between 0 and 800, with its
//!   mark at TOP; it is answered with its corner.
//! - `next TOP HEIGHT` is answered with the highest of the bottoms of the floats beside a box there.
//! - `clear SIDE` is answered with the edge below the floats to clear, or `none`.

ghost use Rattle.std.specs.Prelude.{pos, ◌^◌};
ghost use Rattle.lay_floats.specs.Within.{IsWithin, RequestWithin};

use crate::float_page::Page;
use anyhow::{Result, bail};
use lay_case_reading::Row;
use lay_floats::{Clear, FloatReq, Floats, Place, Side, SolidReq};
use lay_units::Unit;
use std::alloc::Global;

/// A float that is to be placed.
#[derive(Drop)]
struct FloatTerm {
    side: Side,
    width: i16,
    height: i16,
    left: i16,
    right: i16,
    ceiling: i16,
    clear: Clear,
}

/// The answers to terms.
pub(crate) fn answers(alloc: Global, text: &str) -> Result<String> {
    let mut page = Page::new(alloc);
    let mut out = String::new(alloc);
    for term in text.split(',') {
        if !out.is_empty() {
            out.push_str(", ")?;
        }
        push_answer(&mut page, &mut out, Row::new(term))?;
    }
    Ok(out)
}

/// Writes the answer to a term.
fn push_answer(page: &mut Page, out: &mut String, mut cells: Row<'_>) -> Result<()> {
    match cells.word() {
        Some("left") => push_float(page, out, &float_term(Side::Left, cells)?),
        Some("right") => push_float(page, out, &float_term(Side::Right, cells)?),
        Some("line") => push_room(&page.floats, out, cells),
        Some("next") => push_next_bottom(&page.floats, out, cells),
        Some("solid") => push_solid(&page.floats, out, cells),
        Some("clear") => push_clear_edge(&page.floats, out, cells),
        _ => bail!("no term"),
    }
}

fn push_float(page: &mut Page, out: &mut String, float: &FloatTerm) -> Result<()> {
    push_place(out, page.put(&request(float))?)
}

fn push_room(floats: &Floats, out: &mut String, mut cells: Row<'_>) -> Result<()> {
    let top = cells.number()?;
    let height = cells.number()?;
    cells.end()?;
    let (left, right) = floats.room(px(top), px(height), px(0), px(800));
    push_px(out, left, right)
}

fn push_solid(floats: &Floats, out: &mut String, mut cells: Row<'_>) -> Result<()> {
    let width = cells.number()?;
    let height = cells.number()?;
    let top = cells.number()?;
    cells.end()?;
    let request = SolidReq {
        x: px(0),
        width: px(width),
        height: px(height),
        right: px(800),
        top: px(top),
    };
    push_place(out, floats.fit_solid(&request))
}

fn push_next_bottom(floats: &Floats, out: &mut String, mut cells: Row<'_>) -> Result<()> {
    let top = cells.number()?;
    let height = cells.number()?;
    cells.end()?;
    push_px_or_none(out, floats.next_bottom(px(top), px(height)))
}

fn push_clear_edge(floats: &Floats, out: &mut String, mut cells: Row<'_>) -> Result<()> {
    let clear = clear(&mut cells)?;
    cells.end()?;
    push_px_or_none(out, floats.clear_edge(clear))
}

fn float_term(side: Side, mut cells: Row<'_>) -> Result<FloatTerm> {
    let mut float = FloatTerm {
        side,
        width: cells.number()?,
        height: cells.number()?,
        left: 0,
        right: 800,
        ceiling: 0,
        clear: Clear::None,
    };
    for _ in 0..3 {
        match cells.word() {
            Some(word) => float.set(word, &mut cells)?,
            None => break,
        }
    }
    cells.end()?;
    Ok(float)
}

impl FloatTerm {
    /// Sets what a word says, with the cells behind it.
    fn set(&mut self, word: &str, cells: &mut Row<'_>) -> Result<()> {
        match word {
            "in" => {
                self.left = cells.number()?;
                self.right = cells.number()?;
            }
            "from" => self.ceiling = cells.number()?,
            "clear" => self.clear = clear(cells)?,
            _ => bail!("a float has no {word}"),
        }
        Ok(())
    }
}

fn clear(cells: &mut Row<'_>) -> Result<Clear> {
    match cells.word() {
        Some("none") => Ok(Clear::None),
        Some("left") => Ok(Clear::Left),
        Some("right") => Ok(Clear::Right),
        Some("both") => Ok(Clear::Both),
        _ => bail!("no side to clear"),
    }
}

fn request(float: &FloatTerm) -> FloatReq
    ensures { RequestWithin (pos (2 ^ 24)) (pos (2 ^ 24)) result }
{
    FloatReq {
        side: float.side,
        width: px(float.width),
        height: px(float.height),
        left: px(float.left),
        right: px(float.right),
        ceiling: px(float.ceiling),
        clear: float.clear,
    }
}

fn px(v: i16) -> Unit
    ensures { IsWithin (pos (2 ^ 24)) result.0 }
{
    Unit(i64::from(v) * 64)
}

fn push_place(out: &mut String, place: Place) -> Result<()> {
    push_px(out, place.x, place.y)
}

fn push_px_or_none(out: &mut String, edge: Option<Unit>) -> Result<()> {
    match edge {
        Some(edge) => {
            let edge = edge.0 / 64;
            write!(out, "{edge}")?;
        }
        None => out.push_str("none")?,
    }
    Ok(())
}

fn push_px(out: &mut String, first: Unit, second: Unit) -> Result<()> {
    let first = first.0 / 64;
    let second = second.0 / 64;
    Ok(write!(out, "{first} {second}")?)
}
