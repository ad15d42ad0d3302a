//! Laws of the definition. The functions do nothing.

ghost use Rattle.lay_abspos.specs.Relative.Laws.{OneColumnOfMoves, SomeColumnOfMoves};

/// The boxes of a formatting context are moved in one way.
pub fn one_column_of_moves()
    ensures { OneColumnOfMoves }
{}

/// The boxes of a formatting context are moved in some way.
pub fn some_column_of_moves()
    ensures { SomeColumnOfMoves }
{}
