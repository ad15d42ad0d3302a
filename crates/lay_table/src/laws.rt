//! Laws of the definition. The functions do nothing.

ghost use Rattle.lay_table.specs.Laws.{OneTablePlacement, SomeTablePlacement};

use lay_flow::blocks::some_flow_of;

/// The placement of a table is the only one.
pub fn one_table_placement()
    ensures { OneTablePlacement }
{}

/// And it has one.
pub fn some_table_placement()
    ensures { SomeTablePlacement }
{
    some_flow_of();
}
