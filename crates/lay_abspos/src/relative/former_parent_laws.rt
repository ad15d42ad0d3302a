//! The law of the definition. The function does nothing.

ghost use Rattle.lay_abspos.specs.Relative.FormerParents.{OneFormerParent};

/// A box has one former parent at most.
pub fn one_former_parent()
    ensures { OneFormerParent }
{}
