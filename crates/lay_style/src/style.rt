//! Computed styles.

use crate::style_lengths::{
    BorderSpacing, LengthPercentage, LengthPercentageOrAuto, LengthPercentageOrNone, LineHeight,
    VerticalAlign, ZIndex,
};
use crate::style_words::{
    BorderCollapse, BorderStyle, CaptionSide, Clear, Display, EmptyCells, Float, Overflow,
    Position, TableLayout, TextAlign, Visibility, WhiteSpace,
};
use lay_units::Unit;

/// A value for each side of a box.
#[derive(Clone, Copy)]
pub struct Edges<T> {
    pub top: T,
    pub right: T,
    pub bottom: T,
    pub left: T,
}

/// Sizes and their bounds (CSS 2.2, 10.2, 10.4, 10.5 and 10.7).
#[derive(Clone, Copy)]
pub struct Sizing {
    pub width: LengthPercentageOrAuto,
    pub height: LengthPercentageOrAuto,
    pub min_width: LengthPercentage,
    pub min_height: LengthPercentage,
    pub max_width: LengthPercentageOrNone,
    pub max_height: LengthPercentageOrNone,
}

/// Borders (8.5). The width of a side without a border is 0.
#[derive(Clone, Copy)]
pub struct Borders {
    pub width: Edges<Unit>,
    pub style: Edges<BorderStyle>,
}

/// Fonts, lines and texts (10.8, 15.7 and chapter 16).
#[derive(Clone, Copy)]
pub struct TextStyle {
    pub font_size: Unit,
    pub line_height: LineHeight,
    pub text_indent: LengthPercentage,
    pub text_align: TextAlign,
    pub white_space: WhiteSpace,
    pub letter_spacing: Unit,
    pub word_spacing: Unit,
    pub vertical_align: VerticalAlign,
}

/// Tables (chapter 17).
#[derive(Clone, Copy)]
pub struct TableStyle {
    pub layout: TableLayout,
    pub border_collapse: BorderCollapse,
    pub border_spacing: BorderSpacing,
    pub caption_side: CaptionSide,
    pub empty_cells: EmptyCells,
}

/// The computed style of a node.
#[derive(Clone, Copy)]
pub struct Style {
    /// As declared: what 9.7 changes, it changes when boxes are made.
    pub display: Display,
    pub position: Position,
    pub float: Float,
    pub clear: Clear,
    /// `top`, `right`, `bottom` and `left` (9.3.2).
    pub offset: Edges<LengthPercentageOrAuto>,
    pub z_index: ZIndex,
    pub sizing: Sizing,
    pub margin: Edges<LengthPercentageOrAuto>,
    pub padding: Edges<LengthPercentage>,
    pub border: Borders,
    pub overflow: Overflow,
    pub visibility: Visibility,
    pub text: TextStyle,
    pub table: TableStyle,
}
