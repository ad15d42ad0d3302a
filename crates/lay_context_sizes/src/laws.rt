//! The laws of the definitions: a formatting context has a pair of preferred widths and a column of used sizes, and one alone,
//! and preferred widths count for what shrinks to fit alone.

ghost use Rattle.lay_context_sizes.specs.Laws.{OneContextSizes, OneContextWidths, WidthsCountWhereShrunk};
ghost use Rattle.lay_context_sizes.specs.Laws.{SomeContextSizes, SomeContextWidths};

use lay_table_sizes::{
    one_cell_sizes, one_table_sizes, one_table_widths, some_cell_sizes, some_table_sizes,
    some_table_widths,
};

/// The preferred widths of a formatting context are the only ones beside what it is given.
pub fn one_context_widths()
    ensures { OneContextWidths }
{
    one_table_widths();
}

/// The used sizes of the boxes of a formatting context are the only ones beside what it is given.
pub fn one_context_sizes()
    ensures { OneContextSizes }
{
    one_table_sizes();
    one_cell_sizes();
}

/// Where the own box neither shrinks to fit nor is absolutely positioned, its preferred widths don't count for its sizes.
pub fn widths_count_where_shrunk()
    ensures { WidthsCountWhereShrunk }
{}

/// A formatting context has preferred widths.
pub fn some_context_widths()
    ensures { SomeContextWidths }
{
    some_table_widths();
}

/// The boxes of a formatting context have used sizes.
pub fn some_context_sizes()
    ensures { SomeContextSizes }
{
    some_table_sizes();
    some_cell_sizes();
}
