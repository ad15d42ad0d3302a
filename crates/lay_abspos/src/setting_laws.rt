//! Laws of what an absolutely positioned box is given from outside. The functions do nothing.

ghost use Rattle.lay_abspos.specs.SettingLaws.{OneAbsoluteSizes, OneOffset, OneStretchedHeight, OneTableLeft};
ghost use Rattle.lay_abspos.specs.SettingLaws.{SomeAbsoluteSizes, SomeOffset, SomeStretchedHeight, SomeTableLeft};

/// An absolutely positioned box has one set of used sizes.
pub fn one_absolute_sizes()
    ensures { OneAbsoluteSizes }
{}

/// It has one height between `top` and `bottom`.
pub fn one_stretched_height()
    ensures { OneStretchedHeight }
{}

/// An absolutely positioned table has one place across.
pub fn one_table_left()
    ensures { OneTableLeft }
{}

/// An absolutely positioned box stands in one place.
pub fn one_offset()
    ensures { OneOffset }
{}

/// An absolutely positioned box has used sizes, whatever it is given.
pub fn some_absolute_sizes()
    ensures { SomeAbsoluteSizes }
{}

/// It has a height between `top` and `bottom`, or none.
pub fn some_stretched_height()
    ensures { SomeStretchedHeight }
{}

/// An absolutely positioned table has a place across.
pub fn some_table_left()
    ensures { SomeTableLeft }
{}

/// An absolutely positioned box stands in a place.
pub fn some_offset()
    ensures { SomeOffset }
{}
