//! Laws of the definitions. The functions do nothing.

ghost use Rattle.lay_boxgen.specs.BreakLaws.{InlinesAreBroken};
ghost use Rattle.lay_boxgen.specs.RunLaws.{RunsAreReplaced};

/// Gathering runs of consecutive siblings replaces each longest run, and nothing else does.
pub fn runs_are_replaced()
    ensures { RunsAreReplaced }
{}

/// An inline box is broken round each longest break, and in no other way.
pub fn inlines_are_broken()
    ensures { InlinesAreBroken }
{}
