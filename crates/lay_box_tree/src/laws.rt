//! Laws of the definitions. The functions do nothing.

ghost use Rattle.lay_box_tree.specs.Containers.{ContainersAreATree, OneContainer};

/// A box has one nearest block container.
pub fn one_container()
    ensures { OneContainer }
{}

/// With their nearest block containers for parents the boxes of a context are a tree again.
pub fn containers_are_a_tree()
    ensures { ContainersAreATree }
{}
