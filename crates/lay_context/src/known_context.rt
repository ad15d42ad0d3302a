//! One formatting context, with what is known of all of them.

ghost use Rattle.std.specs.Prelude.{◌≡◌, ◌<◌, length};
ghost use Rattle.lay_contexts.specs.FormattingContexts.{AreFormattingContexts, formatting_context_at};
ghost use Rattle.lay_context.specs.Local.{HasCounts};
ghost use Rattle.lay_context.specs.OneProof.{IsReady-prop};
ghost use Rattle.lay_context.specs.Settings.{laid};
ghost use Rattle.lay_context.specs.Settling.{IsReady};
ghost use Rattle.lay_context.specs.declared.task.Phase.TheVariants.{Place, Size};

use crate::values::Values;
use lay_contexts::{FormattingContext, FormattingContexts};
use lay_placements::{Corner, Standing};
use lay_positioned::Layouts;
use lay_sizes::BoxSizes;

/// The formatting context with this number, and what is known of all of them so far.
#[derive(Drop)]
pub(crate) struct KnownContext<'a, V: Values> {
    pub contexts: &'a FormattingContexts,
    pub known: &'a V,
    pub number: usize,
    ghost within: { number < length contexts.now },
    ghost counts: { HasCounts contexts.now (V.workings known.now) },
}

impl<'a, V: Values> KnownContext<'a, V> {
    /// The formatting context itself.
    pub(crate) fn formatting_context(&self) -> &FormattingContext
        ensures context { result.now ≡ formatting_context_at self.now.contexts.now self.now.number }
        ensures are { AreFormattingContexts self.now.contexts.now }
    {
        self.contexts.at(self.number)
    }
}

/// How all of them are laid out, as far as it is known.
impl<'a, V: Values> Layouts for KnownContext<'a, V> {
    ghost laid = { λ k. laid (V.workings k.known.now) };

    ghost count = { λ k. length k.contexts.now };

    fn sizes(&self, i: usize) -> &[BoxSizes] {
        self.known.sizes(i).boxes().as_slice()
    }

    fn standings(&self, i: usize) -> &[Standing] {
        self.known.placed(i).placement().standings()
    }

    fn offset(&self, i: usize) -> Corner {
        self.known.placed(i).offset()
    }
}

/// A formatting context for which all is known that its sizes need.
#[derive(Drop)]
pub(crate) struct ReadyToSize<'a, V: Values> {
    pub at: KnownContext<'a, V>,
    ghost ready: { IsReady at.contexts.now (V.workings at.known.now)
        (record { context = at.number; phase = Size }) } by { IsReady-prop at.contexts.now (V.workings at.known.now)
            (record { context = at.number; phase = Size }) },
}

/// A formatting context for which all is known that its placement needs.
#[derive(Drop)]
pub(crate) struct ReadyToPlace<'a, V: Values> {
    pub at: KnownContext<'a, V>,
    ghost ready: { IsReady at.contexts.now (V.workings at.known.now)
        (record { context = at.number; phase = Place }) } by { IsReady-prop at.contexts.now (V.workings at.known.now)
            (record { context = at.number; phase = Place }) },
}
