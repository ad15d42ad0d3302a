//! Laws of declarations.

ghost use Rattle.lay_style.specs.Declarations.{SetsOne, ClearsOne};

/// To set a declaration changes what is declared for its property alone.
pub fn sets_one()
    ensures { SetsOne }
{}

/// To take a declaration away changes what is declared for its property alone.
pub fn clears_one()
    ensures { ClearsOne }
{}
