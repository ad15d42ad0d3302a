//! The computed style of a node (CSS 2.2, 6.1.2), from what it has itself, its parent's style and the
//! initial one.

ghost use Rattle.std.specs.Prelude.{◌≡◌};
ghost use Rattle.lay_inherit.specs.Within.{widths_of_styles};
ghost use Rattle.lay_style.specs.ComputedStyle.{font_size, offsets, margins, paddings, border_styles, width_of_style};
ghost use Rattle.lay_style.specs.ComputedStyle.{border_widths, borders, sizing, text_style, table_style, styled, computed_style};

use crate::cascade::cascaded;
use crate::declared::declares;
use crate::initial::initial_style;
use crate::lengths::{font_size_of, px};
use crate::own::Own;
use lay_style::{
    BorderStyle, Borders, Decls, Edges, LengthPercentage, LengthPercentageOrAuto, Property, Sizing,
    Style, TableStyle, TextStyle,
};
use lay_units::Unit;

/// The font size, which all other em lengths and the percentages of the line height are taken of.
fn font_size(parent: Unit, decls: &Decls) -> Unit
    ensures { result ≡ font_size parent decls.now }
{
    cascaded(Property::FontSize, decls, parent, px(16), |given| {
        font_size_of(parent, given)
    })
}

/// `top`, `right`, `bottom` and `left` (9.3.2).
fn offsets(
    own: &Own<'_>,
    parent: &Edges<LengthPercentageOrAuto>,
    initial: &Edges<LengthPercentageOrAuto>,
) -> Edges<LengthPercentageOrAuto>
    ensures { result ≡ offsets own.now.font parent.now initial.now own.now.decls.now }
{
    if !declares(own.decls, Property::Top, Property::Left) {
        return *initial;
    }
    Edges {
        top: own.offset(Property::Top, parent.top, initial.top),
        right: own.offset(Property::Right, parent.right, initial.right),
        bottom: own.offset(Property::Bottom, parent.bottom, initial.bottom),
        left: own.offset(Property::Left, parent.left, initial.left),
    }
}

/// The margins (8.3).
fn margins(
    own: &Own<'_>,
    parent: &Edges<LengthPercentageOrAuto>,
    initial: &Edges<LengthPercentageOrAuto>,
) -> Edges<LengthPercentageOrAuto>
    ensures { result ≡ margins own.now.font parent.now initial.now own.now.decls.now }
{
    if !declares(own.decls, Property::MarginTop, Property::MarginLeft) {
        return *initial;
    }
    Edges {
        top: own.offset(Property::MarginTop, parent.top, initial.top),
        right: own.offset(Property::MarginRight, parent.right, initial.right),
        bottom: own.offset(Property::MarginBottom, parent.bottom, initial.bottom),
        left: own.offset(Property::MarginLeft, parent.left, initial.left),
    }
}

/// The paddings (8.4).
fn paddings(
    own: &Own<'_>,
    parent: &Edges<LengthPercentage>,
    initial: &Edges<LengthPercentage>,
) -> Edges<LengthPercentage>
    ensures { result ≡ paddings own.now.font parent.now initial.now own.now.decls.now }
{
    if !declares(own.decls, Property::PaddingTop, Property::PaddingLeft) {
        return *initial;
    }
    Edges {
        top: own.least_size(Property::PaddingTop, parent.top, initial.top),
        right: own.least_size(Property::PaddingRight, parent.right, initial.right),
        bottom: own.least_size(Property::PaddingBottom, parent.bottom, initial.bottom),
        left: own.least_size(Property::PaddingLeft, parent.left, initial.left),
    }
}

/// The styles of the borders (8.5.3).
fn border_styles(
    own: &Own<'_>,
    parent: &Edges<BorderStyle>,
    initial: &Edges<BorderStyle>,
) -> Edges<BorderStyle>
    ensures { result ≡ border_styles parent.now initial.now own.now.decls.now }
{
    if !declares(
        own.decls,
        Property::BorderTopStyle,
        Property::BorderLeftStyle,
    ) {
        return *initial;
    }
    Edges {
        top: own.border_style(Property::BorderTopStyle, parent.top, initial.top),
        right: own.border_style(Property::BorderRightStyle, parent.right, initial.right),
        bottom: own.border_style(Property::BorderBottomStyle, parent.bottom, initial.bottom),
        left: own.border_style(Property::BorderLeftStyle, parent.left, initial.left),
    }
}

/// The width of a border of this style.
fn width_of_style(style: BorderStyle, width: Unit) -> Unit
    ensures { result ≡ width_of_style style width }
{
    match style {
        BorderStyle::None | BorderStyle::Hidden => px(0),
        _ => width,
    }
}

/// The widths of borders of these styles, where these are declared.
fn widths_of_styles(style: &Edges<BorderStyle>, width: &Edges<Unit>) -> Edges<Unit>
    ensures { result ≡ widths_of_styles style.now width.now }
{
    Edges {
        top: width_of_style(style.top, width.top),
        right: width_of_style(style.right, width.right),
        bottom: width_of_style(style.bottom, width.bottom),
        left: width_of_style(style.left, width.left),
    }
}

/// The widths of the borders (8.5.1), which have these styles.
fn border_widths(
    own: &Own<'_>,
    style: &Edges<BorderStyle>,
    parent: &Edges<Unit>,
    initial: &Edges<Unit>,
) -> Edges<Unit>
    ensures { result ≡ border_widths own.now.font style.now parent.now initial.now own.now.decls.now }
{
    if !declares(
        own.decls,
        Property::BorderTopWidth,
        Property::BorderLeftWidth,
    ) {
        return widths_of_styles(style, initial);
    }
    Edges {
        top: width_of_style(
            style.top,
            own.border_width(Property::BorderTopWidth, parent.top, initial.top),
        ),
        right: width_of_style(
            style.right,
            own.border_width(Property::BorderRightWidth, parent.right, initial.right),
        ),
        bottom: width_of_style(
            style.bottom,
            own.border_width(Property::BorderBottomWidth, parent.bottom, initial.bottom),
        ),
        left: width_of_style(
            style.left,
            own.border_width(Property::BorderLeftWidth, parent.left, initial.left),
        ),
    }
}

/// The borders (8.5).
fn borders(own: &Own<'_>, parent: &Borders, initial: &Borders) -> Borders
    ensures { result ≡ borders own.now.font parent.now initial.now own.now.decls.now }
{
    let style = border_styles(own, &parent.style, &initial.style);
    Borders {
        width: border_widths(own, &style, &parent.width, &initial.width),
        style,
    }
}

/// The sizes and their bounds (10.2, 10.4, 10.5 and 10.7).
fn sizing(own: &Own<'_>, parent: &Sizing, initial: &Sizing) -> Sizing
    ensures { result ≡ sizing own.now.font parent.now initial.now own.now.decls.now }
{
    if !declares(own.decls, Property::Width, Property::MaxHeight) {
        return *initial;
    }
    Sizing {
        width: own.size(Property::Width, parent.width, initial.width),
        height: own.size(Property::Height, parent.height, initial.height),
        min_width: own.least_size(Property::MinWidth, parent.min_width, initial.min_width),
        min_height: own.least_size(Property::MinHeight, parent.min_height, initial.min_height),
        max_width: own.greatest_size(Property::MaxWidth, parent.max_width, initial.max_width),
        max_height: own.greatest_size(Property::MaxHeight, parent.max_height, initial.max_height),
    }
}

/// Fonts, lines and texts (10.8, 15.7 and chapter 16).
fn text_style(own: &Own<'_>, parent: &TextStyle, initial: &TextStyle) -> TextStyle
    ensures { result ≡ text_style own.now.font parent.now initial.now own.now.decls.now }
{
    if !declares(own.decls, Property::LineHeight, Property::VerticalAlign) {
        return TextStyle {
            font_size: own.font,
            vertical_align: initial.vertical_align,
            ..*parent
        };
    }
    TextStyle {
        font_size: own.font,
        line_height: own.line_height(parent.line_height, initial.line_height),
        text_indent: own.indent(parent.text_indent, initial.text_indent),
        text_align: own.text_align(parent.text_align, initial.text_align),
        white_space: own.white_space(parent.white_space, initial.white_space),
        letter_spacing: own.spacing(
            Property::LetterSpacing,
            parent.letter_spacing,
            initial.letter_spacing,
        ),
        word_spacing: own.spacing(
            Property::WordSpacing,
            parent.word_spacing,
            initial.word_spacing,
        ),
        vertical_align: own.vertical_align(parent.vertical_align, initial.vertical_align),
    }
}

/// Tables (chapter 17).
fn table_style(own: &Own<'_>, parent: &TableStyle, initial: &TableStyle) -> TableStyle
    ensures { result ≡ table_style own.now.font parent.now initial.now own.now.decls.now }
{
    if !declares(own.decls, Property::TableLayout, Property::EmptyCells) {
        return TableStyle {
            layout: initial.layout,
            ..*parent
        };
    }
    TableStyle {
        layout: own.table_layout(parent.layout, initial.layout),
        border_collapse: own.border_collapse(parent.border_collapse, initial.border_collapse),
        border_spacing: own.border_spacing(parent.border_spacing, initial.border_spacing),
        caption_side: own.caption_side(parent.caption_side, initial.caption_side),
        empty_cells: own.empty_cells(parent.empty_cells, initial.empty_cells),
    }
}

/// The style of a node that has this itself.
fn styled(own: &Own<'_>, parent: &Style, initial: &Style) -> Style
    ensures { result ≡ styled own.now.font parent.now initial.now own.now.decls.now }
{
    Style {
        display: own.display(parent.display, initial.display),
        position: own.position(parent.position, initial.position),
        float: own.float(parent.float, initial.float),
        clear: own.clear(parent.clear, initial.clear),
        offset: offsets(own, &parent.offset, &initial.offset),
        z_index: own.z_index(parent.z_index, initial.z_index),
        sizing: sizing(own, &parent.sizing, &initial.sizing),
        margin: margins(own, &parent.margin, &initial.margin),
        padding: paddings(own, &parent.padding, &initial.padding),
        border: borders(own, &parent.border, &initial.border),
        overflow: own.overflow(parent.overflow, initial.overflow),
        visibility: own.visibility(parent.visibility, initial.visibility),
        text: text_style(own, &parent.text, &initial.text),
        table: table_style(own, &parent.table, &initial.table),
    }
}

/// The computed style of a node whose parent has this style.
pub(crate) fn computed_style(parent: &Style, decls: &Decls) -> Style
    ensures { result ≡ computed_style parent.now decls.now }
{
    let font = font_size(parent.text.font_size, decls);
    styled(&Own { decls, font }, parent, initial_style())
}
