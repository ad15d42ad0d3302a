//! The contexts of a document after an edit.

ghost use Rattle.std.specs.Prelude.{IfOk, IfSome};
ghost use Rattle.lay_contexts.specs.ContextList.{AreContextsOf};
ghost use Rattle.lay_after_edits.specs.Contexts.Edited.{IsEdited};
ghost use Rattle.lay_after_edits.specs.Contexts.Links.{AreRestyled};
ghost use Rattle.lay_after_edits.specs.Contexts.Reach.{IsChange};

use crate::contexts::alike::are_alike;
use crate::contexts::anchored::narrowed;
use crate::contexts::building::{LaterContexts, built};
use crate::contexts::doc_pair::DocPair;
use crate::contexts::edited_doc::EditedDoc;
use crate::contexts::places::places_of;
use crate::contexts::reach::{changed_node, reach_of, reached_flags};
use crate::contexts::texts::stays_seen;
use lay_contexts::{Contexts, contexts_of};
use lay_doc::NodeId;
use lay_units::NoMemory;
use std::alloc::Global;

/// The contexts of a document after an edit, where these are those before it.
pub fn contexts_after(
    alloc: Global,
    of: &EditedDoc<'_>,
    before: &Contexts,
) -> Result<LaterContexts, NoMemory>
    requires edited { IsEdited of.now.doc.now of.now.was.now of.now.edit.now of.now.later.now of.now.styles.now }
    requires before { AreContextsOf of.now.doc.now.nodes of.now.was.now before.now }
    ensures are { IfOk result (λ l. AreContextsOf of.now.later.now.nodes of.now.styles.now l.contexts) }
    ensures made { IfOk result (λ l. IfSome l.made (λ v. AreRestyled before.now l.contexts v.items)) }
{
    if let Some(node) = changed_node(of.edit) {
        if let Some(restyled) = restyled_contexts(alloc, of, before, node)? {
            return Ok(restyled);
        }
    }
    let _ = of.later.nodes();
    let contexts = contexts_of(alloc, of.later, of.styles)?;
    Ok(LaterContexts {
        contexts,
        made: None,
    })
}

/// Those after an edit of the declarations or the text of this node; None where it changes more of the boxes than their styles and texts.
fn restyled_contexts(
    alloc: Global,
    of: &EditedDoc<'_>,
    before: &Contexts,
    node: NodeId,
) -> Result<Option<LaterContexts>, NoMemory>
    requires edited { IsEdited of.now.doc.now of.now.was.now of.now.edit.now of.now.later.now of.now.styles.now }
    requires before { AreContextsOf of.now.doc.now.nodes of.now.was.now before.now }
    requires node { IsChange of.now.edit.now node.0 }
    ensures are { IfOk result (λ o. IfSome o (λ l. AreContextsOf of.now.later.now.nodes of.now.styles.now l.contexts)) }
    ensures made { IfOk result (λ o. IfSome o (λ l. IfSome l.made (λ v. AreRestyled before.now l.contexts v.items))) }
{
    let _ = of.doc.nodes();
    let _ = of.later.nodes();
    let pair = DocPair {
        doc: of.doc,
        was: of.was,
        later: of.later,
        styles: of.styles,
    };
    let places = places_of(alloc, before)?;
    let reach = reach_of(of, &places, node);
    if !are_alike(
        of.was.as_slice(),
        of.styles.as_slice(),
        reach.from,
        reach.until,
    ) {
        return Ok(None);
    }
    if !stays_seen(of, reach.from) {
        return Ok(None);
    }
    let reached = reached_flags(alloc, narrowed(of, &places, reach), &places)?;
    built(alloc, &pair, before, &places, reached)
}
