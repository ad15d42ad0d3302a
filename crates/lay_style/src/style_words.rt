//! Keywords as computed values, an enum for each property that has keywords alone.

/// `display` (CSS 2.2, 9.2.4).
#[derive(Clone, Copy, Debug, PartialEq, Eq)]
pub enum Display {
    Inline,
    Block,
    ListItem,
    InlineBlock,
    Table,
    InlineTable,
    TableRowGroup,
    TableHeaderGroup,
    TableFooterGroup,
    TableRow,
    TableColumnGroup,
    TableColumn,
    TableCell,
    TableCaption,
    None,
}

/// `position` (9.3.1).
#[derive(Clone, Copy, Debug, PartialEq, Eq)]
pub enum Position {
    Static,
    Relative,
    Absolute,
    Fixed,
}

/// `float` (9.5.1).
#[derive(Clone, Copy, Debug, PartialEq, Eq)]
pub enum Float {
    None,
    Left,
    Right,
}

/// `clear` (9.5.2).
#[derive(Clone, Copy, Debug, PartialEq, Eq)]
pub enum Clear {
    None,
    Left,
    Right,
    Both,
}

/// The style of a border (8.5.3).
#[derive(Clone, Copy, Debug, PartialEq, Eq)]
pub enum BorderStyle {
    None,
    Hidden,
    Dotted,
    Dashed,
    Solid,
    Double,
    Groove,
    Ridge,
    Inset,
    Outset,
}

/// `overflow` (11.1.1).
#[derive(Clone, Copy, Debug, PartialEq, Eq)]
pub enum Overflow {
    Visible,
    Hidden,
    Scroll,
    Auto,
}

/// `visibility` (11.2), which has no effect on layout.
#[derive(Clone, Copy, Debug, PartialEq, Eq)]
pub enum Visibility {
    Visible,
    Hidden,
    Collapse,
}

/// `text-align` (16.2).
#[derive(Clone, Copy, Debug, PartialEq, Eq)]
pub enum TextAlign {
    Left,
    Right,
    Center,
    Justify,
}

/// `white-space` (16.6).
#[derive(Clone, Copy, Debug, PartialEq, Eq)]
pub enum WhiteSpace {
    Normal,
    Pre,
    Nowrap,
    PreWrap,
    PreLine,
}

/// `table-layout` (17.5.2).
#[derive(Clone, Copy, Debug, PartialEq, Eq)]
pub enum TableLayout {
    Auto,
    Fixed,
}

/// `border-collapse` (17.6).
#[derive(Clone, Copy, Debug, PartialEq, Eq)]
pub enum BorderCollapse {
    Separate,
    Collapse,
}

/// `caption-side` (17.4.1).
#[derive(Clone, Copy, Debug, PartialEq, Eq)]
pub enum CaptionSide {
    Top,
    Bottom,
}

/// `empty-cells` (17.6.1.1), which has no effect on layout.
#[derive(Clone, Copy, Debug, PartialEq, Eq)]
pub enum EmptyCells {
    Show,
    Hide,
}
