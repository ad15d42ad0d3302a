//! Laws of the definitions. The functions do nothing.

ghost use Rattle.lay_box_tree.specs.PartLaws.{EndsAreOne};

/// An inline box has one first part and one last part.
pub fn ends_are_one()
    ensures { EndsAreOne }
{}
