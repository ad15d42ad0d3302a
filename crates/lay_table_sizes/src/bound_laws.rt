//! Laws of the definitions. The functions do nothing.

ghost use Rattle.lay_table_sizes.specs.BoundLaws.{AutoTablesHaveRoom, AutoWidthsFitTheRoom};
ghost use Rattle.lay_table_sizes.specs.BoundLaws.{CellBoundsHaveOrder, GivenWidthsAreGreatest};
ghost use Rattle.lay_table_sizes.specs.BoundLaws.{OneAutoWidth, OneListOfTableBounds};

/// A table has one list of bounds.
pub fn one_list_of_table_bounds()
    ensures { OneListOfTableBounds }
{}

/// A table has one width.
pub fn one_auto_width()
    ensures { OneAutoWidth }
{}

/// A cell asks for no more at least than at most.
pub fn cell_bounds_have_order()
    ensures { CellBoundsHaveOrder }
{}

/// A table has room for its columns at their minimums and for its captions.
pub fn auto_tables_have_room()
    ensures { AutoTablesHaveRoom }
{}

/// A table with a `width` is as wide as the greatest of that, its columns at their minimums and its captions.
pub fn given_widths_are_greatest()
    ensures { GivenWidthsAreGreatest }
{}

/// One without is as wide as its columns at their maximums or the room for it, and no less than those others.
pub fn auto_widths_fit_the_room()
    ensures { AutoWidthsFitTheRoom }
{}
