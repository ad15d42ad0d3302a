//! Laws of the definitions. The functions do nothing.

ghost use Rattle.lay_values.specs.Laws.{OneName, OneWord, NameFault, OneMeasure};

/// Each property has one name.
pub fn one_name()
    ensures { OneName }
{}

/// Each keyword is read from its own letters alone, in any case.
pub fn one_word()
    ensures { OneWord }
{}

/// A name is at fault exactly where no property has it.
pub fn name_fault()
    ensures { NameFault }
{}

/// A number and what stands behind it are read in one way.
pub fn one_measure()
    ensures { OneMeasure }
{}
