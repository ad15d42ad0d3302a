//! Laws of what stands in lines. The clusters of a word have one width together (lay_line_items), which saves lines and preferred
//! widths the time to add them up again and again. It changes neither: a pen comes just as far over a word as over its clusters one by
//! one (CSS 2.2, 9.4.2, 10.3.5 and 16.6). And preferred widths are those of lines: content breaks in its preferred width only where it
//! must, and reaches nowhere past its preferred minimum width (10.3.5).
//!
//! The functions do nothing; what they ensure are the laws of `specs/Words/Laws.antt`, `specs/Words/PreferredLines.antt`,
//! `specs/Words/InlineEdges.antt` and `specs/Words/ShrinkingBoxes.antt`.

ghost use Rattle.lay_flow_boxes.specs.Words.Laws.{WordsAreTheirClusters, WordsMeasureAsTheirClusters};
ghost use Rattle.lay_flow_boxes.specs.Words.InlineEdges.{InlineEdgesAreAsMeasured};
ghost use Rattle.lay_flow_boxes.specs.Words.PreferredLines.{LinesComeAsFarAsMeasured, MinimumWidthHoldsEachLine};
ghost use Rattle.lay_flow_boxes.specs.Words.PreferredLines.{PreferredWidthBreaksNothing};
ghost use Rattle.lay_flow_boxes.specs.Words.ShrinkingBoxes.{ShrinkingBoxesTakeWhatIsMeasured};

/// In a line the pen comes as far over words as over their clusters.
pub fn words_are_their_clusters()
    ensures { WordsAreTheirClusters }
{}

/// And so it does where preferred widths are worked out.
pub fn words_measure_as_their_clusters()
    ensures { WordsMeasureAsTheirClusters }
{}

/// The pen of a line comes as far as the one by which preferred widths are worked out.
pub fn lines_come_as_far_as_measured()
    ensures { LinesComeAsFarAsMeasured }
{}

/// Content in its preferred width breaks only where it has to.
pub fn preferred_width_breaks_nothing()
    ensures { PreferredWidthBreaksNothing }
{}

/// No line reaches past the preferred minimum width.
pub fn minimum_width_holds_each_line()
    ensures { MinimumWidthHoldsEachLine }
{}

/// Where no margin and no padding of an inline box is a percentage, lines have the edges of it that preferred widths count.
pub fn inline_edges_are_as_measured()
    ensures { InlineEdgesAreAsMeasured }
{}

/// A box that shrinks to fit takes what preferred widths count of it, where its containing block has room for that.
pub fn shrinking_boxes_take_what_is_measured()
    ensures { ShrinkingBoxesTakeWhatIsMeasured }
{}
