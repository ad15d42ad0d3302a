//! Where a property's value on a node comes from (CSS 2.2, 6.1.1, 6.2 and 6.2.1).

ghost use Rattle.std.specs.Prelude.{◌≡◌};
ghost use Rattle.lay_style.specs.Inheritance.{is_inherited, cascaded};
ghost use Rattle.lay_style.specs.declared.property.Given.{Given};
ghost use Rattle.lay_inherit.specs.Rules.{Follows};

use lay_style::{Decls, Given, Property};

/// Whether the parent's value is taken where nothing is declared.
fn is_inherited(property: Property) -> bool
    ensures { result ≡ is_inherited property }
{
    matches!(
        property,
        Property::FontSize
            | Property::LineHeight
            | Property::TextIndent
            | Property::TextAlign
            | Property::WhiteSpace
            | Property::LetterSpacing
            | Property::WordSpacing
            | Property::BorderCollapse
            | Property::BorderSpacing
            | Property::CaptionSide
            | Property::Visibility
            | Property::EmptyCells
    )
}

/// The property's value: what `computed` makes of its declaration, the parent's or the initial one.
pub(crate) fn cascaded<T: Copy, F: FnOnce(Given) -> T>(
    property: Property,
    decls: &Decls,
    parent: T,
    initial: T,
    computed: F,
) -> T
    requires { F.IsAlwaysCallable computed }
    ensures { (value : Given → T) → Follows (F.post computed) value → result ≡ cascaded property decls.now parent initial value }
{
    match decls.get(property) {
        None if is_inherited(property) => parent,
        None => initial,
        Some(Given::Inherit) => parent,
        Some(given) => computed(given),
    }
}
