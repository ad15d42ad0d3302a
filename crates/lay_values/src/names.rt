//! Properties by their names.

ghost use Rattle.std.specs.Prelude.{◌≡◌, true, IfSome, map};
ghost use Rattle.std.specs.Str.{is_utf8};
ghost use Rattle.std.specs.Char.{to_ascii_lowercase};
ghost use Rattle.lay_values.specs.Names.{name_of, of_length, property_of};

use lay_style::Property;

/// The property's name.
fn name_of(property: Property) -> &'static str
    ensures { result.now ≡ name_of property }
{
    match property {
        Property::Display => "display",
        Property::Position => "position",
        Property::Float => "float",
        Property::Clear => "clear",
        Property::Top => "top",
        Property::Right => "right",
        Property::Bottom => "bottom",
        Property::Left => "left",
        Property::ZIndex => "z-index",
        Property::Width => "width",
        Property::Height => "height",
        Property::MinWidth => "min-width",
        Property::MinHeight => "min-height",
        Property::MaxWidth => "max-width",
        Property::MaxHeight => "max-height",
        Property::MarginTop => "margin-top",
        Property::MarginRight => "margin-right",
        Property::MarginBottom => "margin-bottom",
        Property::MarginLeft => "margin-left",
        Property::PaddingTop => "padding-top",
        Property::PaddingRight => "padding-right",
        Property::PaddingBottom => "padding-bottom",
        Property::PaddingLeft => "padding-left",
        Property::BorderTopWidth => "border-top-width",
        Property::BorderRightWidth => "border-right-width",
        Property::BorderBottomWidth => "border-bottom-width",
        Property::BorderLeftWidth => "border-left-width",
        Property::BorderTopStyle => "border-top-style",
        Property::BorderRightStyle => "border-right-style",
        Property::BorderBottomStyle => "border-bottom-style",
        Property::BorderLeftStyle => "border-left-style",
        Property::Overflow => "overflow",
        Property::FontSize => "font-size",
        Property::LineHeight => "line-height",
        Property::TextIndent => "text-indent",
        Property::TextAlign => "text-align",
        Property::WhiteSpace => "white-space",
        Property::LetterSpacing => "letter-spacing",
        Property::WordSpacing => "word-spacing",
        Property::VerticalAlign => "vertical-align",
        Property::TableLayout => "table-layout",
        Property::BorderCollapse => "border-collapse",
        Property::BorderSpacing => "border-spacing",
        Property::CaptionSide => "caption-side",
        Property::Visibility => "visibility",
        Property::EmptyCells => "empty-cells",
    }
}

/// The properties whose names have this length.
fn of_length(length: usize) -> &'static [Property]
    ensures { result.now ≡ of_length length }
{
    match length {
        3 => &[Property::Top],
        4 => &[Property::Left],
        5 => &[
            Property::Float,
            Property::Clear,
            Property::Right,
            Property::Width,
        ],
        6 => &[Property::Bottom, Property::Height],
        7 => &[Property::Display, Property::ZIndex],
        8 => &[Property::Position, Property::Overflow],
        9 => &[Property::MinWidth, Property::MaxWidth, Property::FontSize],
        10 => &[
            Property::MinHeight,
            Property::MaxHeight,
            Property::MarginTop,
            Property::TextAlign,
            Property::Visibility,
        ],
        11 => &[
            Property::MarginLeft,
            Property::PaddingTop,
            Property::LineHeight,
            Property::TextIndent,
            Property::WhiteSpace,
            Property::EmptyCells,
        ],
        12 => &[
            Property::MarginRight,
            Property::PaddingLeft,
            Property::WordSpacing,
            Property::TableLayout,
            Property::CaptionSide,
        ],
        13 => &[Property::MarginBottom, Property::PaddingRight],
        14 => &[
            Property::PaddingBottom,
            Property::LetterSpacing,
            Property::VerticalAlign,
            Property::BorderSpacing,
        ],
        15 => &[Property::BorderCollapse],
        16 => &[Property::BorderTopWidth, Property::BorderTopStyle],
        17 => &[Property::BorderLeftWidth, Property::BorderLeftStyle],
        18 => &[Property::BorderRightWidth, Property::BorderRightStyle],
        19 => &[Property::BorderBottomWidth, Property::BorderBottomStyle],
        _ => &[],
    }
}

/// The property that has just this name, in bytes: those are UTF-8 then, without capitals.
#[tactic(auto, using(crate::proofs::Ascii::property_same))]
pub(crate) fn property_named(name: &[u8]) -> Option<Property>
    ensures property { result ≡ property_of name.now }
    ensures utf8 { IfSome result (λ _. is_utf8 name.now ≡ true) }
    ensures small { IfSome result (λ _. map to_ascii_lowercase name.now ≡ name.now) }
{
    let named = of_length(name.len());
    for property in named {
        if name_of(*property).as_bytes() == name {
            return Some(*property);
        }
    }
    None
}

/// The property that has just this name.
pub fn property_of(name: &str) -> Option<Property>
    ensures { result ≡ property_of name.now }
{
    property_named(name.as_bytes())
}
