//! Laws of the definitions. The functions do nothing.

ghost use Rattle.lay_abspos.specs.Laws.{OneUsedAxis, SomeUsedAxis};

/// An absolutely positioned box has one set of used offsets, margins and sizes along each axis.
pub fn one_used_axis()
    ensures { OneUsedAxis }
{}

/// And it has one, whatever is given of it.
pub fn some_used_axis()
    ensures { SomeUsedAxis }
{}
