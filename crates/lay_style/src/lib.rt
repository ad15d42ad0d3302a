//! Values of properties, declarations, and styles.
//!
//! Which values a property takes is `specs/Values.antt`, with the keywords of `specs/Words.antt`. A declaration
//! keeps in its type that its value is one of its property's; the declarations of a node are a list in which no
//! property stands twice (`specs/Declarations.antt`). The computed style of a node comes from its declarations
//! and its parent's style (`specs/ComputedStyle.antt`; CSS 2.2, chapter 6), each value from where
//! `specs/Inheritance.antt` says.
#![tactic(auto)]

mod computed;
mod declaration;
mod laws;
mod property;
mod style;
mod style_lengths;
mod style_words;
mod used_lengths;
mod values;
mod words;

pub use computed::{Computed, style_at};
pub use declaration::{Decl, Decls};
pub use laws::{clears_one, sets_one};
pub use property::{Given, OneLength, Property, Word};
pub use style::{Borders, Edges, Sizing, Style, TableStyle, TextStyle};
pub use style_lengths::{
    BorderSpacing, LengthPercentage, LengthPercentageOrAuto, LengthPercentageOrNone, LineHeight,
    VerticalAlign, ZIndex,
};
pub use style_words::{
    BorderCollapse, BorderStyle, CaptionSide, Clear, Display, EmptyCells, Float, Overflow,
    Position, TableLayout, TextAlign, Visibility, WhiteSpace,
};
pub use used_lengths::{length_of, size_of};
