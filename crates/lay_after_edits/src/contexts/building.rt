//! One context after another as an edit leaves it.

ghost use Rattle.std.specs.Prelude.{◌≡◌, ◌<◌, false, IfOk, IfSome, length};
ghost use Rattle.lay_boxgen.specs.Contexts.{IsContextAt};
ghost use Rattle.lay_contexts.specs.ContextList.{AreContextsOf};
ghost use Rattle.lay_contexts.specs.Contexts.{boxes_in, context_at};
ghost use Rattle.lay_contexts.specs.ContextTree.{boxes_of_place};
ghost use Rattle.lay_after_edits.specs.Contexts.Links.{AreRestyled};
ghost use Rattle.lay_after_edits.specs.Contexts.Rebuilt.{AreRebuilt};
ghost use Rattle.lay_after_edits.specs.Contexts.Unstyled.{all_unstyled};

use crate::contexts::doc_pair::DocPair;
use crate::contexts::unstyled::are_unstyled_same;
use lay_box_tree::ContextBoxes;
use lay_boxgen::boxes;
use lay_contexts::{Context, ContextSpot, Contexts};
use lay_units::NoMemory;
use std::alloc::Global;
use std::sync::Arc;

/// The contexts of a document after edits. Where it is known that just some of their boxes were made anew, and that all else of them is
/// as before, also which.
#[derive(Drop)]
pub struct LaterContexts {
    pub contexts: Contexts,
    pub made: Option<Vec<bool>>,
}

/// The contexts of a later document, of which those with such a flag have their boxes made anew. None where more than styles and texts
/// differ.
pub(crate) fn built(
    alloc: Global,
    of: &DocPair<'_>,
    before: &Contexts,
    places: &[usize],
    reached: Vec<bool>,
) -> Result<Option<LaterContexts>, NoMemory>
    requires styles { length of.now.was.now ≡ length of.now.doc.now.nodes }
    requires later_styles { length of.now.styles.now ≡ length of.now.later.now.nodes }
    requires before { AreContextsOf of.now.doc.now.nodes of.now.was.now before.now }
    requires rebuilt { AreRebuilt of.now.doc.now.nodes of.now.later.now.nodes of.now.was.now of.now.styles.now before.now places.now
        reached.items }
    ensures are { IfOk result (λ o. IfSome o (λ l. AreContextsOf of.now.later.now.nodes of.now.styles.now l.contexts)) }
    ensures made { IfOk result (λ o. IfSome o (λ l. IfSome l.made (λ v. AreRestyled before.now l.contexts v.items))) }
{
    let _ = of.doc.nodes();
    let _ = of.later.nodes();
    let mut items = Vec::with_capacity(alloc, before.len())?;
    for i in 0..before.len() {
        let Some(context) = context_after(alloc, of, before, i, reached[i])? else {
            return Ok(None);
        };
        items.push(context)?;
    }
    Ok(Some(LaterContexts {
        contexts: Contexts::new(items),
        made: Some(reached),
    }))
}

/// What the context with the number i becomes: with boxes that are made anew, or shared. None where more than styles and texts of its
/// boxes differ.
fn context_after(
    alloc: Global,
    of: &DocPair<'_>,
    before: &Contexts,
    i: usize,
    is_made: bool,
) -> Result<Option<Arc<Context>>, NoMemory>
    requires styles { length of.now.styles.now ≡ length of.now.later.now.nodes }
    requires within { i < length before.now }
    requires context { IsContextAt of.now.later.now.nodes of.now.styles.now (context_at before.now i).place }
    requires kept { is_made ≡ false
        → boxes_in before.now i ≡ boxes_of_place of.now.later.now.nodes of.now.styles.now (context_at before.now i).place }
    ensures links { IfOk result (λ o. IfSome o (λ c. c.value ≡ record (context_at before.now i) { boxes = c.value.boxes })) }
    ensures boxes { IfOk result
        (λ o. IfSome o (λ c. c.value.boxes ≡ boxes_of_place of.now.later.now.nodes of.now.styles.now (context_at before.now i).place)) }
    ensures unstyled { IfOk result (λ o. IfSome o (λ c. all_unstyled c.value.boxes ≡ all_unstyled (boxes_in before.now i))) }
{
    if !is_made {
        let kept = before.share(i)?;
        return Ok(Some(kept));
    }
    let context = before.at(i);
    let place = context.place();
    let Some(boxes) = boxes_after(alloc, of, context, place)? else {
        return Ok(None);
    };
    let later = context_with(alloc, context, boxes)?;
    let shared = Arc::new(alloc, later)?;
    Ok(Some(shared))
}

/// The boxes of a context after an edit, whose element is at this place, made anew. None where more than styles and texts differ.
fn boxes_after(
    alloc: Global,
    of: &DocPair<'_>,
    context: &Context,
    place: usize,
) -> Result<Option<ContextBoxes>, NoMemory>
    requires styles { length of.now.styles.now ≡ length of.now.later.now.nodes }
    requires context { IsContextAt of.now.later.now.nodes of.now.styles.now place }
    ensures boxes { IfOk result (λ o. IfSome o (λ b. b ≡ boxes_of_place of.now.later.now.nodes of.now.styles.now place)) }
    ensures unstyled { IfOk result (λ o. IfSome o (λ b. all_unstyled b ≡ all_unstyled context.now.boxes)) }
{
    let node = of.later.nodes()[place].id;
    let tree = boxes(alloc, of.later, of.styles, node)?;
    let made = ContextBoxes::new(alloc, tree)?;
    if are_unstyled_same(made.as_slice(), context.boxes().as_slice()) {
        return Ok(Some(made));
    }
    Ok(None)
}

/// A context that stands where another one does, with other boxes.
fn context_with(alloc: Global, context: &Context, boxes: ContextBoxes) -> Result<Context, NoMemory>
    ensures { IfOk result (λ c. c ≡ record context.now { boxes = boxes }) }
{
    let inner = Vec::from_slice(alloc, context.inner())?;
    let spot = ContextSpot {
        place: context.place(),
        around: context.outer(),
        at: context.outer_box(),
    };
    Ok(Context::new(spot, boxes, inner))
}
