//! Laws of the definitions. The functions do nothing.

ghost use Rattle.lay_line_measures.specs.Laws.{AtomicBoxesAreMarginBoxes, HeadsOfContentBeginLines, SeenLinesAreSeen};

/// Content has a line that is seen exactly where one is seen when its lines are laid.
pub fn seen_lines_are_seen()
    ensures { SeenLinesAreSeen }
{}

/// Only a stretch that surely begins a line has floats that are met before its content.
pub fn heads_of_content_begin_lines()
    ensures { HeadsOfContentBeginLines }
{}

/// An atomic box is as high in its line as its margin box, which stands on the baseline where it has none itself.
pub fn atomic_boxes_are_margin_boxes()
    ensures { AtomicBoxesAreMarginBoxes }
{}
