//! Laws of the definition. The functions do nothing.

ghost use Rattle.lay_abspos.specs.PlaceLaws.{OneOwnPlace, SomeOwnPlace};

/// A formatting context stands in one place beside its placement.
pub fn one_own_place()
    ensures { OneOwnPlace }
{}

/// A formatting context stands in a place beside its placement.
pub fn some_own_place()
    ensures { SomeOwnPlace }
{}
