//! The contexts of a document after a list of edits.

ghost use Rattle.std.specs.Prelude.{◌≡◌, IfOk, IfSome, length};
ghost use Rattle.lay_contexts.specs.ContextList.{AreContextsOf};
ghost use Rattle.lay_after_edits.specs.Contexts.Changed.{AreMadeAnew};
ghost use Rattle.lay_after_edits.specs.Contexts.Links.{AreRestyled};

use crate::contexts::alike_nodes::are_alike_nodes;
use crate::contexts::building::{LaterContexts, built};
use crate::contexts::doc_pair::DocPair;
use crate::contexts::places::places_of;
use crate::contexts::reached::reached_contexts;
use lay_contexts::{Contexts, contexts_of};
use lay_units::NoMemory;
use std::alloc::Global;

/// The contexts of a document after edits of declarations and texts, where these are those before them, and at most the nodes with a flag
/// or their styles were changed.
pub fn contexts_after_all(
    alloc: Global,
    of: &DocPair<'_>,
    made: &[bool],
    before: &Contexts,
) -> Result<LaterContexts, NoMemory>
    requires styles { length of.now.was.now ≡ length of.now.doc.now.nodes }
    requires later_styles { length of.now.styles.now ≡ length of.now.later.now.nodes }
    requires made { AreMadeAnew of.now.doc.now.nodes of.now.later.now.nodes of.now.was.now of.now.styles.now made.now }
    requires before { AreContextsOf of.now.doc.now.nodes of.now.was.now before.now }
    ensures are { IfOk result (λ l. AreContextsOf of.now.later.now.nodes of.now.styles.now l.contexts) }
    ensures made { IfOk result (λ l. IfSome l.made (λ v. AreRestyled before.now l.contexts v.items)) }
{
    if are_alike_nodes(of, made) {
        let _ = of.doc.nodes();
        let places = places_of(alloc, before)?;
        let reached = reached_contexts(alloc, of, made, &places)?;
        let _ = of.later.nodes();
        if let Some(later) = built(alloc, of, before, &places, reached)? {
            return Ok(later);
        }
    }
    let contexts = contexts_of(alloc, of.later, of.styles)?;
    Ok(LaterContexts {
        contexts,
        made: None,
    })
}
