//! The formatting contexts of contexts of which just some have other boxes.

ghost use Rattle.std.specs.Prelude.{◌≡◌, ◌<◌, ◌+◌, IfOk, OnOk, length};
ghost use Rattle.lay_contexts.specs.Contexts.{boxes_in};
ghost use Rattle.lay_contexts.specs.FormattingContextList.{AreFormattingContextsOf};
ghost use Rattle.lay_contexts.specs.FormattingContexts.{formatting_context_at};
ghost use Rattle.lay_contexts.specs.KeptLinks.{FollowTo, KeepLinks, KeepUnflagged};

use crate::Contexts;
use crate::formatting_context::{FormattingContext, FormattingContexts};
use crate::parting::Parting;
use crate::root_boxes::boxes_of_root;
use crate::roots::is_root;
use lay_units::NoMemory;
use std::alloc::Global;

/// The contexts of a document with their formatting contexts, and what the contexts became.
#[derive(Clone, Copy)]
pub struct LaterBoxes<'a> {
    pub contexts: &'a Contexts,
    pub all: &'a FormattingContexts,
    pub later: &'a Contexts,
}

/// The formatting contexts of later contexts, which have the links of those before. Those of contexts without a flag keep their boxes, and
/// share them.
pub fn later_formatting_contexts(
    alloc: Global,
    of: &LaterBoxes<'_>,
    made: &[bool],
) -> Result<FormattingContexts, NoMemory>
    requires are { AreFormattingContextsOf of.now.contexts.now of.now.all.now }
    requires links { KeepLinks of.now.contexts.now of.now.later.now }
    requires kept { KeepUnflagged of.now.contexts.now of.now.later.now made.now }
    ensures { IfOk result (AreFormattingContextsOf of.now.later.now) }
{
    let _ = of.contexts.len();
    let mut items = Vec::with_capacity(alloc, of.all.len())?;
    for i in 0..of.later.len() {
        if made[i] {
            list_made(alloc, of, i, &mut items)?;
        } else {
            list_kept(of, i, &mut items)?;
        }
    }
    Ok(FormattingContexts::new(items))
}

/// Lists the formatting contexts of the context i.
fn list_made(
    alloc: Global,
    of: &LaterBoxes<'_>,
    i: usize,
    items: &mut Vec<FormattingContext>,
) -> Result<(), NoMemory>
    requires links { KeepLinks of.now.contexts.now of.now.later.now }
    requires within { i < length of.now.later.now }
    requires before { FollowTo of.now.contexts.now of.now.later.now of.now.all.now items.old.items i 0 }
    ensures { OnOk result (FollowTo of.now.contexts.now of.now.later.now of.now.all.now items.new.items (i + 1) 0) }
{
    let _ = of.all.len();
    let boxes = of.later.at(i).boxes();
    let listed = boxes.as_slice();
    let first = items.len();
    let parting = Parting::new(alloc, listed, first)?;
    for r in 0..listed.len() {
        if is_root(listed, r) {
            let own = boxes_of_root(alloc, boxes, &parting, first, r)?;
            let context = of.all.at(items.len()).with_boxes(own)?;
            items.push(context)?;
        }
    }
    Ok(())
}

/// The same where it keeps its boxes.
fn list_kept(
    of: &LaterBoxes<'_>,
    i: usize,
    items: &mut Vec<FormattingContext>,
) -> Result<(), NoMemory>
    requires links { KeepLinks of.now.contexts.now of.now.later.now }
    requires within { i < length of.now.later.now }
    requires kept { boxes_in of.now.later.now i ≡ boxes_in of.now.contexts.now i }
    requires before { FollowTo of.now.contexts.now of.now.later.now of.now.all.now items.old.items i 0 }
    ensures { OnOk result (FollowTo of.now.contexts.now of.now.later.now of.now.all.now items.new.items (i + 1) 0) }
{
    let boxes = of.later.at(i).boxes().as_slice();
    for r in 0..boxes.len() {
        if is_root(boxes, r) {
            let context = shared(of.all, items.len())?;
            items.push(context)?;
        }
    }
    Ok(())
}

/// The formatting context with this number, with the same boxes.
fn shared(all: &FormattingContexts, number: usize) -> Result<FormattingContext, NoMemory>
    requires { number < length all.now }
    ensures { IfOk result (λ c. c ≡ formatting_context_at all.now number) }
{
    let context = all.at(number);
    let boxes = context.boxes().share()?;
    context.with_boxes(boxes)
}
