//! The content of lines that the tasks of a layout share.

ghost use Rattle.std.specs.Prelude.{◌≡◌, ◌<◌, length, IfOk};
ghost use Rattle.lay_context.specs.SharedContents.{AreContentsShared, HaveContents, asked_in};

use crate::computing::asked_by_placement;
use crate::measured::is_measured;
use crate::medium::Medium;
use lay_contexts::FormattingContexts;
use lay_flow_boxes::{Asked, contents_of};
use lay_line_items::InlineContents;
use lay_units::NoMemory;
use std::alloc::Global;

/// For each formatting context the content of those lines that more than one task asks for: where it is measured, of those with
/// a text, and elsewhere of those with an anchor, whose line is looked up.
pub(crate) fn shared_contents(
    alloc: Global,
    medium: &Medium,
    contexts: &FormattingContexts,
) -> Result<Vec<InlineContents>, NoMemory>
    ensures shared { IfOk result (λ v. AreContentsShared medium.now.face contexts.now v.items) }
    ensures have { IfOk result (λ v. HaveContents medium.now.face contexts.now v.items) }
{
    let face = medium.face()?;
    let count = contexts.len();
    let mut contents = Vec::with_capacity(alloc, count)?;
    for i in 0..count {
        let asked = asked_in(contexts, i);
        let kept = contents_of(alloc, contexts.at(i).boxes(), &face, asked)?;
        contents.push(kept)?;
    }
    Ok(contents)
}

/// For which boxes of the formatting context with this number more than one task asks. Lines without a text are made by each.
fn asked_in(contexts: &FormattingContexts, i: usize) -> Asked
    requires { i < length contexts.now }
    ensures { result ≡ asked_in contexts.now i }
{
    match asked_by_placement(contexts.at(i).boxes()) {
        Asked::Anchors if is_measured(contexts, i) => Asked::Texts,
        asked => asked,
    }
}
