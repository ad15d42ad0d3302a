//! The tree of a document, put together of the values of its formatting contexts.

ghost use Rattle.std.specs.Prelude.{◌≡◌, ◌+◌, ◌^◌, ◌<◌, ◌≤◌, length, IfOk};
ghost use Rattle.lay_frag.specs.Pieces.{IsContextInRange};
ghost use Rattle.lay_placements.specs.NearPieces.{IsRectNear};
ghost use Rattle.lay_context.specs.PlacedContexts.{placement_in};
ghost use Rattle.lay_context.specs.Solves.{IsAssembled, page_context, page_contexts, page_rect, page_width};

use crate::known_context::KnownContext;
use crate::laid_contexts::{ContextsOnPage, LaidContexts};
use crate::page_corners::{corner_at, page_corners};
use crate::page_standings::{noted_standing, page_standings};
use crate::settings::cell_of;
use crate::values::Values;
use lay_frag::{Placed, Tree};
use lay_placements::near_position;
use lay_sizes::OwnBox;
use lay_table_sizes::CellSize;
use lay_units::{NoMemory, Rect, Unit};
use std::alloc::Global;

/// More pieces than a report can number.
const TOO_MANY_PIECES: usize = 4294967296;

/// The tree of these formatting contexts.
pub fn assemble<V: Values>(alloc: Global, laid: &LaidContexts<'_, V>) -> Result<Tree, NoMemory>
    ensures { IfOk result (IsAssembled laid.now.contexts.now (V.workings laid.now.known.now)) }
{
    let standings = page_standings(alloc, laid)?;
    let corners = page_corners(alloc, laid, &standings)?;
    let laid = LaidContexts {
        contexts: laid.contexts,
        known: laid.known,
    };
    let on_page = ContextsOnPage {
        laid,
        standings: &standings,
        corners: &corners,
    };
    tree_of(alloc, &on_page)
}

/// The tree of these formatting contexts, which stand there on the page. NoMemory is also the answer for 2^32 pieces or
/// more.
fn tree_of<V: Values>(alloc: Global, on_page: &ContextsOnPage<'_, '_, V>) -> Result<Tree, NoMemory>
    ensures { IfOk result
        (λ t. t
        ≡ page_contexts on_page.now.laid.contexts.now (V.workings on_page.now.laid.known.now) on_page.now.corners.now
        (length on_page.now.laid.contexts.now)) }
{
    let contexts = on_page.laid.contexts;
    let count = contexts.len();
    let mut tree = Vec::with_capacity(alloc, count)?;
    let mut pieces = 0;
    for i in 0..count {
        if !contexts.at(i).is_anonymous() {
            let context = page_context(on_page, i)?;
            pieces = with_few(pieces, &context)?;
            tree.push(context)?;
        }
    }
    Ok(Tree::new(tree))
}

/// So many pieces with those of a context. NoMemory is the answer where they aren't below 2^32.
fn with_few(before: usize, context: &Placed) -> Result<usize, NoMemory>
    requires before { before < 2 ^ 32 }
    requires few { length context.now.pieces ≤ 2147483648 }
    ensures count { IfOk result (λ n. n ≡ before + length context.now.pieces) }
    ensures few { IfOk result (λ n. n < 2 ^ 32) }
{
    let count = before + context.pieces().len();
    if count >= TOO_MANY_PIECES {
        return Err(NoMemory);
    }
    Ok(count)
}

/// The formatting context with this number on the page.
fn page_context<V: Values>(
    on_page: &ContextsOnPage<'_, '_, V>,
    i: usize,
) -> Result<Placed, NoMemory>
    requires { i < length on_page.now.laid.contexts.now }
    ensures value { IfOk result
        (λ c. c ≡ page_context on_page.now.laid.contexts.now (V.workings on_page.now.laid.known.now) on_page.now.corners.now i) }
    ensures range { IfOk result IsContextInRange }
    ensures few { IfOk result (λ c. length c.pieces ≤ 2147483648) }
{
    let laid = &on_page.laid;
    let placement = laid.known.placed(i).placement();
    let rect = page_rect(on_page, i, placement.own())?;
    let shift = noted_standing(laid, on_page.standings, i).shift;
    let pieces = placement.pieces()?;
    let boxes = laid.contexts.at(i).boxes().as_slice();
    Ok(Placed::new(boxes[0].node, rect, shift, pieces))
}

/// The border box of the formatting context with this number, which has this own box, on the page. NoMemory is the answer where it
/// is wider than 2^60 units, which it is in no document within the limits.
fn page_rect<V: Values>(
    on_page: &ContextsOnPage<'_, '_, V>,
    i: usize,
    own: OwnBox,
) -> Result<Rect, NoMemory>
    requires within { i < length on_page.now.laid.contexts.now }
    requires own { own ≡ (placement_in (V.workings on_page.now.laid.known.now).places i).own }
    ensures rect { IfOk result
        (λ r. r ≡ page_rect on_page.now.laid.contexts.now (V.workings on_page.now.laid.known.now) on_page.now.corners.now i) }
    ensures near { IfOk result IsRectNear }
{
    let laid = &on_page.laid;
    let at = KnownContext {
        contexts: laid.contexts,
        known: laid.known,
        number: i,
    };
    let corner = corner_at(on_page.corners, i);
    let width = page_width(cell_of(&at), own);
    let width = near_position(width)?;
    Ok(Rect {
        x: corner.x,
        y: corner.y,
        w: width,
        h: noted_standing(laid, on_page.standings, i).height,
    })
}

/// A cell is as wide as its columns.
fn page_width(cell: Option<CellSize>, own: OwnBox) -> Unit
    ensures { result ≡ page_width cell own }
{
    match cell {
        Some(cell) => cell.width,
        None => own.width,
    }
}
