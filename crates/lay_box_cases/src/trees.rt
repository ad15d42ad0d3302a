//! A tree of one context, which has two pieces: its border box, and a text in it.

ghost use Rattle.std.specs.Prelude.{◌≡◌, [], ◌∷◌, IfOk};
ghost use Rattle.lay_frag.specs.Pieces.{IsTreeInRange};
ghost use Rattle.lay_box_cases.specs.Small.{IsShortLength, IsShortRect};

use anyhow::Result;
use lay_case_reading::{Row, ample};
use lay_doc::NodeId;
use lay_frag::{Frag, FragKind, Pieces, Placed, Tree, push_frag, text_of};
use lay_units::{Rect, Unit};
use std::alloc::Global;
use std::sync::Arc;

/// Its lines, with commas between them.
pub(crate) fn lines(alloc: Global, text: &str) -> Result<String> {
    let mut cells = Row::new(text);
    let tree = read(alloc, &mut cells)?;
    cells.end()?;
    let lines = ample(text_of(alloc, &tree))?;
    let mut out = String::new(alloc);
    for line in lines.as_str().lines() {
        if !out.is_empty() {
            out.push_str(", ")?;
        }
        out.push_str(line)?;
    }
    Ok(out)
}

/// The line of its piece with a number; `none` where there is no such piece.
pub(crate) fn piece_line(alloc: Global, text: &str) -> Result<String> {
    let mut cells = Row::new(text);
    let tree = read(alloc, &mut cells)?;
    let number: u16 = cells.number()?;
    cells.end()?;
    match tree.frag(number as usize) {
        Some(frag) => line(alloc, &frag),
        None => Ok(String::from_str(alloc, "none")?),
    }
}

fn line(alloc: Global, frag: &Frag) -> Result<String> {
    let mut line = Vec::new(alloc);
    ample(push_frag(&mut line, frag))?;
    let text = str::from_utf8(line.as_slice()).unwrap_or("bytes that are no text");
    Ok(String::from_str(alloc, text.trim_end())?)
}

/// The tree of the next cells.
fn read(alloc: Global, cells: &mut Row<'_>) -> Result<Tree> {
    let own = rect(cells)?;
    let shift = px(cells.number()?);
    let inner = rect(cells)?;
    tree(alloc, own, shift, inner)
}

/// The tree of a context with this border box and shift, and with a text that stands so inside it.
#[tactic(auto, using(crate::proofs::ShortTrees::tree_in_range))]
fn tree(alloc: Global, own: Rect, shift: Unit, inner: Rect) -> Result<Tree>
    requires own { IsShortRect own }
    requires shift { IsShortLength shift.0 }
    requires inner { IsShortRect inner }
{
    let mut pieces = Vec::new(alloc);
    pieces.push(piece(FragKind::Box, 1, own))?;
    pieces.push(piece(FragKind::Text, 2, inner))?;
    let pieces = Arc::new(alloc, Pieces::new(pieces))?;
    let mut contexts = Vec::new(alloc);
    contexts.push(Placed::new(NodeId(1), own, shift, pieces))?;
    Ok(Tree::new(contexts))
}

fn piece(kind: FragKind, node: u32, rect: Rect) -> Frag
    ensures { result ≡ record { kind = kind; node = record { 0 = node }; part = 0; rect = rect } }
{
    Frag {
        kind,
        node: NodeId(node),
        part: 0,
        rect,
    }
}

fn rect(cells: &mut Row<'_>) -> Result<Rect>
    ensures { IfOk result IsShortRect }
{
    let x = cells.number()?;
    let y = cells.number()?;
    let w = cells.number()?;
    let h = cells.number()?;
    Ok(Rect {
        x: px(x),
        y: px(y),
        w: px(w),
        h: px(h),
    })
}

fn px(v: i16) -> Unit
    ensures { IsShortLength result.0 }
{
    Unit(i64::from(v) * 64)
}
