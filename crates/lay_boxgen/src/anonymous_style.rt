//! The styles of anonymous boxes (CSS 2.2, 9.2.1.1).

ghost use Rattle.std.specs.Prelude.{◌≡◌};
ghost use Rattle.lay_style.specs.InitialStyle.{all_sides};
ghost use Rattle.lay_boxgen.specs.AnonymousStyle.{anonymous_style, no_border, initial_sizing, inherited_text, inherited_table};

use lay_style::{
    BorderStyle, Borders, Clear, Display, Edges, Float, LengthPercentage, LengthPercentageOrAuto,
    LengthPercentageOrNone, Overflow, Position, Sizing, Style, TableLayout, TableStyle, TextStyle,
    VerticalAlign, ZIndex,
};
use lay_units::Unit;

const ZERO: Unit = Unit(0);

fn all_sides<T: Copy>(value: T) -> Edges<T>
    ensures { result ≡ all_sides value }
{
    Edges {
        top: value,
        right: value,
        bottom: value,
        left: value,
    }
}

fn no_border() -> Borders
    ensures { result ≡ no_border }
{
    Borders {
        width: all_sides(ZERO),
        style: all_sides(BorderStyle::None),
    }
}

fn initial_sizing() -> Sizing
    ensures { result ≡ initial_sizing }
{
    Sizing {
        width: LengthPercentageOrAuto::Auto,
        height: LengthPercentageOrAuto::Auto,
        min_width: LengthPercentage::Length(ZERO),
        min_height: LengthPercentage::Length(ZERO),
        max_width: LengthPercentageOrNone::None,
        max_height: LengthPercentageOrNone::None,
    }
}

/// What is inherited of fonts, lines and texts, which is all but `vertical-align`.
fn inherited_text(text: TextStyle) -> TextStyle
    ensures { result ≡ inherited_text text }
{
    TextStyle {
        vertical_align: VerticalAlign::Baseline,
        ..text
    }
}

/// What is inherited of tables, which is all but `table-layout`.
fn inherited_table(table: TableStyle) -> TableStyle
    ensures { result ≡ inherited_table table }
{
    TableStyle {
        layout: TableLayout::Auto,
        ..table
    }
}

/// The style of an anonymous box in a box of this style.
pub fn anonymous_style(style: &Style) -> Style
    ensures { result ≡ anonymous_style style.now }
{
    Style {
        display: Display::Inline,
        position: Position::Static,
        float: Float::None,
        clear: Clear::None,
        offset: all_sides(LengthPercentageOrAuto::Auto),
        z_index: ZIndex::Auto,
        sizing: initial_sizing(),
        margin: all_sides(LengthPercentageOrAuto::Length(ZERO)),
        padding: all_sides(LengthPercentage::Length(ZERO)),
        border: no_border(),
        overflow: Overflow::Visible,
        visibility: style.visibility,
        text: inherited_text(style.text),
        table: inherited_table(style.table),
    }
}
