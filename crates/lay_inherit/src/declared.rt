//! Which properties a node declares.

ghost use Rattle.std.specs.Prelude.{◌≡◌};
ghost use Rattle.std.specs.List.{list_any};
ghost use Rattle.lay_style.specs.PropertyNumbers.{number_of};
ghost use Rattle.lay_inherit.specs.Within.{is_within};

use lay_style::{Decls, Property};

/// Whether a property from `first` to `last` is declared. Most nodes declare a few properties, so that most groups of
/// properties are as they are without any.
pub(crate) fn declares(decls: &Decls, first: Property, last: Property) -> bool
    ensures { result ≡ list_any (is_within (number_of first) (number_of last)) decls.now }
{
    declares_within(decls, first.number(), last.number())
}

fn declares_within(decls: &Decls, first: u8, last: u8) -> bool
    ensures { result ≡ list_any (is_within first last) decls.now }
{
    decls.as_slice().iter().any(|decl| {
        let number = decl.property().number();
        first <= number && number <= last
    })
}
