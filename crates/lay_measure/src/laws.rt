//! Laws of the definitions. The functions do nothing.

ghost use Rattle.lay_measure.specs.Laws.{FloatsAloneAddUp, LoneBlockGivesItsWidths, PreferredWidthsAreFromZero};

/// A box whose one child is a block has the preferred widths that this takes.
pub fn lone_block_gives_its_widths()
    ensures { LoneBlockGivesItsWidths }
{}

/// Floats alone have the sum of their preferred widths.
pub fn floats_alone_add_up()
    ensures { FloatsAloneAddUp }
{}

/// The preferred widths of a context are from 0 on.
pub fn preferred_widths_are_from_zero()
    ensures { PreferredWidthsAreFromZero }
{}
