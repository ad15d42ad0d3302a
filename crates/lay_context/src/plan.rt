//! What the tasks of a layout share.

ghost use Rattle.std.specs.Prelude.{◌≡◌, ◌<◌, length};
ghost use Rattle.lay_line_items.specs.InlineContents.{AreContents};
ghost use Rattle.lay_table_grid.specs.GridLaws.{GridsAreOfBoxes};
ghost use Rattle.lay_contexts.specs.FormattingContexts.{boxes_in};
ghost use Rattle.lay_positioned.specs.Levels.{HasLevels};
ghost use Rattle.lay_context.specs.MeasuredFlags.{AreMeasured};
ghost use Rattle.lay_context.specs.OneProof.{HaveContents-prop};
ghost use Rattle.lay_context.specs.SharedContents.{HaveContents, TextsAreKept, contents_in};

use crate::medium::Medium;
use lay_contexts::FormattingContexts;
use lay_line_items::InlineContents;

/// What the tasks of a layout share: the medium, the formatting contexts, their levels, the content of their lines that more
/// than one task asks for, and whether each is measured.
#[derive(Clone, Copy)]
pub(crate) struct Plan<'a> {
    pub medium: &'a Medium,
    pub contexts: &'a FormattingContexts,
    pub levels: &'a [usize],
    pub contents: &'a [InlineContents],
    pub measured: &'a [bool],
    ghost has_levels: { HasLevels contexts.now levels.now },
    ghost grids: { GridsAreOfBoxes },
    ghost have_contents: { HaveContents medium.now.face contexts.now contents.now } by { HaveContents-prop
        medium.now.face contexts.now contents.now },
    ghost are_measured: { AreMeasured contexts.now measured.now },
}

impl<'a> Plan<'a> {
    /// The content of the lines of the formatting context with this number, as far as it is shared. All tasks that ask for it are
    /// given the same.
    pub(crate) fn contents_of(&self, i: usize) -> &'a InlineContents
        requires { i < length self.now.contexts.now }
        ensures same { result.now ≡ contents_in self.now.contents.now i }
        ensures contents { AreContents self.now.medium.now.face (boxes_in self.now.contexts.now i) result.now }
        ensures texts { TextsAreKept self.now.medium.now.face self.now.contexts.now i result.now }
    {
        contents_at(self.contents, i)
    }
}

fn contents_at(contents: &[InlineContents], i: usize) -> &InlineContents
    requires { i < length contents.now }
    ensures { result.now ≡ contents_in contents.now i }
{
    &contents[i]
}
