//! The laws of the definitions.

ghost use Rattle.lay_flow_boxes.specs.Laws.{OneFlowShape, SomeFlowShape};
ghost use Rattle.lay_flow_boxes.specs.LineItems.{BoxesInLinesAreItems, ItemsAreBoxesInLines};
ghost use Rattle.lay_flow_boxes.specs.OneLevel.{WidthsAgreeOnLines};

/// What the boxes of a formatting context are to its block flow is one thing.
pub fn one_flow_shape()
    ensures { OneFlowShape }
{}

/// And there is such a thing.
pub fn some_flow_shape()
    ensures { SomeFlowShape }
{}

/// Each box that stands in the lines of a block container is an item of these, once.
pub fn boxes_in_lines_are_items()
    ensures { BoxesInLinesAreItems }
{}

/// And no other box is.
pub fn items_are_boxes_in_lines()
    ensures { ItemsAreBoxesInLines }
{}

/// Where a block container holds boxes of one level, preferred widths and block flow agree on which of them hold lines.
pub fn widths_agree_on_lines()
    ensures { WidthsAgreeOnLines }
{}
