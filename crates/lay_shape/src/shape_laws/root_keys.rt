//! The keys of the first context, over edits. The function does nothing.

ghost use Rattle.lay_shape.specs.ShapeLaws.RootKeys.{RootStaysFirst};

/// The context of the root element is the first one before an edit and after it.
pub fn root_stays_first()
    ensures { RootStaysFirst }
{}
