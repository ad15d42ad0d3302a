//! The law of the definitions. The function does nothing.

ghost use Rattle.lay_shape.specs.ShapeLaws.NeedLaws.{NeedsAreShaped};

/// What a task needs is of a cell that its cell depends on, or of that cell.
pub fn needs_are_shaped()
    ensures { NeedsAreShaped }
{}
