//! The laws of the definitions.

ghost use Rattle.lay_shape.specs.Touched.Laws.{ListedKeysAreOfTouchedContexts, OneListOfTouchedKeys};
ghost use Rattle.lay_shape.specs.Touched.Laws.{TouchedContextsAreListed, TouchedKeysStandOnce, UnlistedContextsAreUntouched};

/// An edit has one list of keys of the contexts that it touches.
pub fn one_list_of_touched_keys()
    ensures { OneListOfTouchedKeys }
{}

/// The keys of each touched context are listed.
pub fn touched_contexts_are_listed()
    ensures { TouchedContextsAreListed }
{}

/// No others are.
pub fn listed_keys_are_of_touched_contexts()
    ensures { ListedKeysAreOfTouchedContexts }
{}

/// Each stands once, as contexts are of different nodes.
pub fn touched_keys_stand_once()
    ensures { TouchedKeysStandOnce }
{}

/// A context of which a key isn't listed was there before with the same boxes, and measured where it is.
pub fn unlisted_contexts_are_untouched()
    ensures { UnlistedContextsAreUntouched }
{}
