//! Borders that meet at an edge of a table's grid, and how strong their styles and origins are.

ghost use Rattle.std.specs.Prelude.{◌≡◌, pos};
ghost use Rattle.lay_borders.specs.Winner.{style_rank, origin_rank};

use lay_units::Unit;

/// The style of a border (CSS 2.2, 8.5.3).
#[derive(Clone, Copy)]
pub enum BorderStyle {
    None,
    Hidden,
    Dotted,
    Dashed,
    Solid,
    Double,
    Groove,
    Ridge,
    Inset,
    Outset,
}

/// The kind of element that a border is of.
#[derive(Clone, Copy)]
pub enum Origin {
    Cell,
    Row,
    RowGroup,
    Column,
    ColumnGroup,
    Table,
}

/// A border that meets others at an edge: its style and width, the kind of element that it is of,
/// and that element's first row and first column.
#[derive(Clone, Copy)]
pub struct Cand {
    pub style: BorderStyle,
    pub width: Unit,
    pub origin: Origin,
    pub row: u32,
    pub column: u32,
}

impl BorderStyle {
    /// How strong the style is, from `inset` up.
    pub fn rank(self) -> i64
        ensures { result ≡ pos (style_rank self) }
    {
        match self {
            BorderStyle::Hidden => 9,
            BorderStyle::Double => 8,
            BorderStyle::Solid => 7,
            BorderStyle::Dashed => 6,
            BorderStyle::Dotted => 5,
            BorderStyle::Ridge => 4,
            BorderStyle::Outset => 3,
            BorderStyle::Groove => 2,
            BorderStyle::Inset => 1,
            BorderStyle::None => 0,
        }
    }
}

impl Origin {
    /// How strong the origin is, from the table up.
    pub fn rank(self) -> i64
        ensures { result ≡ pos (origin_rank self) }
    {
        match self {
            Origin::Cell => 5,
            Origin::Row => 4,
            Origin::RowGroup => 3,
            Origin::Column => 2,
            Origin::ColumnGroup => 1,
            Origin::Table => 0,
        }
    }
}
