//! Properties and given values.

ghost use Rattle.std.specs.Prelude.{◌≡◌};
ghost use Rattle.lay_style.specs.PropertyNumbers.{number_of};

use lay_units::{Percent, Unit};

/// A property of a style, by its name.
#[derive(Clone, Copy, Debug)]
pub enum Property {
    Display,
    Position,
    Float,
    Clear,
    Top,
    Right,
    Bottom,
    Left,
    ZIndex,
    Width,
    Height,
    MinWidth,
    MinHeight,
    MaxWidth,
    MaxHeight,
    MarginTop,
    MarginRight,
    MarginBottom,
    MarginLeft,
    PaddingTop,
    PaddingRight,
    PaddingBottom,
    PaddingLeft,
    BorderTopWidth,
    BorderRightWidth,
    BorderBottomWidth,
    BorderLeftWidth,
    BorderTopStyle,
    BorderRightStyle,
    BorderBottomStyle,
    BorderLeftStyle,
    Overflow,
    FontSize,
    LineHeight,
    TextIndent,
    TextAlign,
    WhiteSpace,
    LetterSpacing,
    WordSpacing,
    VerticalAlign,
    TableLayout,
    BorderCollapse,
    BorderSpacing,
    CaptionSide,
    Visibility,
    EmptyCells,
}

impl Property {
    /// Its number in the order of their names above, from 0.
    pub fn number(self) -> u8
        ensures { result ≡ number_of self }
    {
        self as u8
    }
}

/// A keyword of a value.
#[derive(Clone, Copy, Debug)]
pub enum Word {
    Inline,
    Block,
    ListItem,
    InlineBlock,
    Table,
    InlineTable,
    TableRowGroup,
    TableHeaderGroup,
    TableFooterGroup,
    TableRow,
    TableColumnGroup,
    TableColumn,
    TableCell,
    TableCaption,
    None,
    Static,
    Relative,
    Absolute,
    Fixed,
    Left,
    Right,
    Both,
    Auto,
    Thin,
    Medium,
    Thick,
    Hidden,
    Dotted,
    Dashed,
    Solid,
    Double,
    Groove,
    Ridge,
    Inset,
    Outset,
    Visible,
    Scroll,
    XxSmall,
    XSmall,
    Small,
    Large,
    XLarge,
    XxLarge,
    Larger,
    Smaller,
    Normal,
    Center,
    Justify,
    Pre,
    Nowrap,
    PreWrap,
    PreLine,
    Baseline,
    Sub,
    Super,
    Top,
    TextTop,
    Middle,
    Bottom,
    TextBottom,
    Separate,
    Collapse,
    Show,
    Hide,
}

/// A length, or thousandths of an em.
#[derive(Clone, Copy, Debug)]
pub enum OneLength {
    Length(Unit),
    Em(i64),
}

/// A value as it was given.
#[derive(Clone, Copy, Debug)]
pub enum Given {
    Keyword(Word),
    Length(Unit),
    Em(i64),
    Percent(Percent),
    Number(i64),
    Pair(OneLength, OneLength),
    Inherit,
}
