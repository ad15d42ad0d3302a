//! The law of the definition.

ghost use Rattle.lay_box_tree.specs.Containing.{ContainersAreNearest};

/// The nearest block container of a box is the one that the standard says (CSS 2.2, 10.1).
pub fn containers_are_nearest()
    ensures { ContainersAreNearest }
{}
