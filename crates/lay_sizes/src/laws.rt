//! Laws of the definitions. The functions do nothing.

ghost use Rattle.lay_sizes.specs.Laws.{OneBoxSizes, SizesFit};

/// A box has one set of used sizes beside its containing block.
pub fn one_box_sizes()
    ensures { OneBoxSizes }
{}

/// Used sizes are within their bounds.
pub fn sizes_fit()
    ensures { SizesFit }
{}
