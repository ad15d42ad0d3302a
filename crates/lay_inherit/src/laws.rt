//! The laws of the definitions.

ghost use Rattle.lay_inherit.specs.StylesFit.{StylesFit};

/// The computed lengths of all nodes are within the bounds of used ones.
pub fn styles_fit()
    ensures { StylesFit }
{}
