//! The way out to the containing block of an absolutely positioned context.

ghost use Rattle.std.specs.Prelude.{◌≡◌, ◌<◌, ◌++◌, IfOk, OnOk, length};
ghost use Rattle.std.specs.List.{All};
ghost use Rattle.lay_contexts.specs.Contexts.{boxes_in};
ghost use Rattle.lay_positioned.specs.Holders.{holder_for};
ghost use Rattle.lay_shape.specs.Building.{is_inner_absolute, leads_on};
ghost use Rattle.lay_shape.specs.Ways.{is_absolute, way_from, way_of};

use lay_contexts::Contexts;
use lay_positioned::{holder_for, is_own_absolute, is_own_fixed};
use lay_units::NoMemory;
use std::alloc::Global;

/// Whether the context with this number is that of an absolutely positioned element (CSS 2.2, 9.6).
pub(crate) fn is_absolute(contexts: &Contexts, i: usize) -> bool
    requires { i < length contexts.now }
    ensures { result ≡ is_absolute contexts.now i }
{
    is_own_absolute(contexts.at(i).boxes())
}

/// The contexts on the way of the one with this number, from the inside out: none where it isn't absolutely positioned.
pub(crate) fn way_of(alloc: Global, contexts: &Contexts, i: usize) -> Result<Vec<usize>, NoMemory>
    requires { i < length contexts.now }
    ensures way { IfOk result (λ v. v.items ≡ way_of contexts.now i) }
    ensures within { IfOk result (λ v. All (λ j. j < length contexts.now) v.items) }
{
    let _ = contexts.len();
    let mut way = Vec::new(alloc);
    if is_out_of_flow(contexts, i) {
        let context = contexts.at(i);
        let is_fixed = is_own_fixed(context.boxes());
        push_way(
            &mut way,
            is_fixed,
            contexts,
            context.outer(),
            context.outer_box(),
        )?;
        return Ok(way);
    }
    Ok(way)
}

/// Whether it is absolutely positioned and not the root's.
fn is_out_of_flow(contexts: &Contexts, i: usize) -> bool
    requires { i < length contexts.now }
    ensures { result ≡ is_inner_absolute contexts.now i }
{
    i > 0 && is_absolute(contexts, i)
}

/// Adds those on the way from the box at k of the context with the number i.
fn push_way(
    way: &mut Vec<usize>,
    is_fixed: bool,
    contexts: &Contexts,
    i: usize,
    k: usize,
) -> Result<(), NoMemory>
    requires within { i < length contexts.now }
    requires place { k < length (boxes_in contexts.now i) }
    ensures { OnOk result (way.new.items ≡ way.old.items ++ way_from i is_fixed contexts.now i k) }
{
    let _ = contexts.len();
    way.push(i)?;
    if leads_on(is_fixed, contexts, i, k) {
        let context = contexts.at(i);
        push_way(
            way,
            is_fixed,
            contexts,
            context.outer(),
            context.outer_box(),
        )?;
        return Ok(());
    }
    Ok(())
}

/// Whether a context is around that with the number i, and no holder among its boxes is around the box at k.
fn leads_on(is_fixed: bool, contexts: &Contexts, i: usize, k: usize) -> bool
    requires within { i < length contexts.now }
    requires place { k < length (boxes_in contexts.now i) }
    ensures { result ≡ leads_on is_fixed contexts.now i k }
{
    i > 0 && holder_at(is_fixed, contexts, i, k).is_none()
}

/// The holder there, if there is one.
fn holder_at(is_fixed: bool, contexts: &Contexts, i: usize, k: usize) -> Option<usize>
    requires within { i < length contexts.now }
    requires place { k < length (boxes_in contexts.now i) }
    ensures { result ≡ holder_for is_fixed (boxes_in contexts.now i) k }
{
    holder_for(is_fixed, contexts.at(i).boxes(), k)
}
