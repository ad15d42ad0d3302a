//! Initial values (CSS 2.2, 6.1.1), as the table of the properties has them.

ghost use Rattle.std.specs.Prelude.{◌≡◌};
ghost use Rattle.lay_style.specs.InitialStyle.{initial_style};

use lay_style::{
    BorderCollapse, BorderSpacing, BorderStyle, Borders, CaptionSide, Clear, Display, Edges,
    EmptyCells, Float, LengthPercentage, LengthPercentageOrAuto, LengthPercentageOrNone,
    LineHeight, Overflow, Position, Sizing, Style, TableLayout, TableStyle, TextAlign, TextStyle,
    VerticalAlign, Visibility, WhiteSpace, ZIndex,
};
use lay_units::Unit;

const ZERO: Unit = Unit(0);
/// The width of a border that is `medium`: 3 px.
const MEDIUM: Unit = Unit(192);
/// A font size that is `medium`: 16 px.
const MEDIUM_FONT: Unit = Unit(1024);

/// The style of a node without declarations in a document of its own, but for the widths of borders. It is made once.
static INITIAL_STYLE: Style = Style {
    display: Display::Inline,
    position: Position::Static,
    float: Float::None,
    clear: Clear::None,
    offset: Edges {
        top: LengthPercentageOrAuto::Auto,
        right: LengthPercentageOrAuto::Auto,
        bottom: LengthPercentageOrAuto::Auto,
        left: LengthPercentageOrAuto::Auto,
    },
    z_index: ZIndex::Auto,
    sizing: Sizing {
        width: LengthPercentageOrAuto::Auto,
        height: LengthPercentageOrAuto::Auto,
        min_width: LengthPercentage::Length(ZERO),
        min_height: LengthPercentage::Length(ZERO),
        max_width: LengthPercentageOrNone::None,
        max_height: LengthPercentageOrNone::None,
    },
    margin: Edges {
        top: LengthPercentageOrAuto::Length(ZERO),
        right: LengthPercentageOrAuto::Length(ZERO),
        bottom: LengthPercentageOrAuto::Length(ZERO),
        left: LengthPercentageOrAuto::Length(ZERO),
    },
    padding: Edges {
        top: LengthPercentage::Length(ZERO),
        right: LengthPercentage::Length(ZERO),
        bottom: LengthPercentage::Length(ZERO),
        left: LengthPercentage::Length(ZERO),
    },
    border: Borders {
        width: Edges {
            top: MEDIUM,
            right: MEDIUM,
            bottom: MEDIUM,
            left: MEDIUM,
        },
        style: Edges {
            top: BorderStyle::None,
            right: BorderStyle::None,
            bottom: BorderStyle::None,
            left: BorderStyle::None,
        },
    },
    overflow: Overflow::Visible,
    visibility: Visibility::Visible,
    text: TextStyle {
        font_size: MEDIUM_FONT,
        line_height: LineHeight::Normal,
        text_indent: LengthPercentage::Length(ZERO),
        text_align: TextAlign::Left,
        white_space: WhiteSpace::Normal,
        letter_spacing: ZERO,
        word_spacing: ZERO,
        vertical_align: VerticalAlign::Baseline,
    },
    table: TableStyle {
        layout: TableLayout::Auto,
        border_collapse: BorderCollapse::Separate,
        border_spacing: BorderSpacing {
            horizontal: ZERO,
            vertical: ZERO,
        },
        caption_side: CaptionSide::Top,
        empty_cells: EmptyCells::Show,
    },
};

/// The initial values, which no call computes anew.
pub(crate) fn initial_style() -> &'static Style
    ensures { result.now ≡ initial_style }
{
    &INITIAL_STYLE
}
