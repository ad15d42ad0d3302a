//! The laws. Their functions do nothing.

ghost use Rattle.lay_shape.specs.KeptShapes.KeptBoxes.{RestyledKeepCells};
ghost use Rattle.lay_shape.specs.KeptShapes.ShapesStay.{ShapesStay};

/// Contexts that keep all but the styles and texts of their boxes keep the shape of their cells.
pub fn shapes_stay()
    ensures { ShapesStay }
{}

/// So they are of the same nodes, and their cells are what they were.
pub fn restyled_keep_cells()
    ensures { RestyledKeepCells }
{}
