//! Which nodes of a document are contexts.

ghost use Rattle.std.specs.Prelude.{◌≡◌, IfOk, length};
ghost use Rattle.lay_contexts.specs.ListedContexts.{AreContextPlaces};

use lay_boxgen::context_flags;
use lay_doc::Doc;
use lay_style::Computed;
use lay_units::NoMemory;
use std::alloc::Global;

/// The places of the nodes that are contexts, in document order.
pub(crate) fn context_places(
    alloc: Global,
    doc: &Doc,
    computed: &Computed,
) -> Result<Vec<usize>, NoMemory>
    requires styles { length computed.now ≡ length doc.now.nodes }
    ensures { IfOk result (λ v. AreContextPlaces doc.now.nodes computed.now v.items) }
{
    let flags = context_flags(alloc, doc, computed)?;
    let flags = flags.as_slice();
    let mut places = Vec::new(alloc);
    for k in 0..flags.len() {
        if flags[k] {
            places.push(k)?;
        }
    }
    Ok(places)
}
