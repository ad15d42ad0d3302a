//! The laws of the definitions.

ghost use Rattle.lay_placement.specs.AnchorLaws.{AnchorsAddNothingToLines};
ghost use Rattle.lay_placement.specs.Laws.{AnchorsAreOnLines, FirstBoxGivesBaseline, FirstSeenLineGivesBaseline};
ghost use Rattle.lay_placement.specs.Laws.{LastSeenLineGivesBaseline, OffsetsChangeCornersAlone, OnePlacement};
ghost use Rattle.lay_placement.specs.Laws.{SomePlacement, UnseenLinesGiveNone};

use lay_flow::blocks::some_flow_of;

/// The placement of a formatting context is the only one beside what it is given.
pub fn one_placement()
    ensures { OnePlacement }
{}

/// And it has one.
pub fn some_placement()
    ensures { SomePlacement }
{
    some_flow_of();
}

/// The baseline of lines is that of one which is seen, with none behind it that is; without a seen line there is none.
pub fn last_seen_line_gives_baseline()
    ensures seen { LastSeenLineGivesBaseline }
    ensures unseen { UnseenLinesGiveNone }
{}

/// The baseline of a cell is that of a box which has one, with none before it that has; that of a box is that of a line which
/// is seen, with none before it that is.
pub fn first_baseline_is_first()
    ensures line { FirstSeenLineGivesBaseline }
    ensures in_box { FirstBoxGivesBaseline }
{}

/// Relative positioning changes no height, no baseline and nothing that is painted but where it stands.
pub fn offsets_change_corners_alone()
    ensures { OffsetsChangeCornersAlone }
{}

/// An anchor in a box that holds lines is on one of them.
pub fn anchors_are_on_lines()
    ensures { AnchorsAreOnLines }
{}

/// The content of lines is the same without the anchors among it.
pub fn anchors_add_nothing_to_lines()
    ensures { AnchorsAddNothingToLines }
{}
