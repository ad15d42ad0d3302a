//! Laws of the cascade. The functions do nothing.

ghost use Rattle.lay_cascade.specs.Styled.Laws.{OneStyled, StyledDeclares};
ghost use Rattle.lay_cascade.specs.Styled.SpecificityNumbers.{WeightsAreNumbers, OwnIsNumber};

/// A sheet styles a document in one way.
pub fn one_styled()
    ensures { OneStyled }
{}

/// Each node declares for each property what is greatest of all that it may declare, its own among them.
pub fn styled_declares()
    ensures { StyledDeclares }
{}

/// Of two declarations of a sheet the important one counts, then that of the greater number of 6.4.3 in any base above all
/// counts, then the later one.
pub fn weights_are_numbers()
    ensures { WeightsAreNumbers }
{}

/// A node's own declaration counts as one of the number that 6.4.3 gives it.
pub fn own_is_number()
    ensures { OwnIsNumber }
{}
