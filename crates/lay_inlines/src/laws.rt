//! The laws of the definitions. The functions do nothing.

ghost use Rattle.lay_inlines.specs.Laws.{
  ContentEndsWithItsPen,
  EachAtomicBoxHasOnePiece,
  EachInlineBoxHasOnePiece,
  EachTextOnALineHasAPiece,
  NoTextHasTwoPieces,
  RaisesAreShiftsOfParts,
  SpacesAtTheEndAreRemoved,
  SpacesAtTheStartAreRemoved,
};

/// The content of a line ends where the pen stood that filled the line.
pub fn content_ends_with_its_pen()
    ensures { ContentEndsWithItsPen }
{}

/// Collapsible spaces at either end of a line show nothing and move nothing.
pub fn removed_spaces_show_nothing()
    ensures start { SpacesAtTheStartAreRemoved }
    ensures end { SpacesAtTheEndAreRemoved }
{}

/// The pieces of a line are of each of its atomic boxes once, in order.
pub fn each_atomic_box_has_one_piece()
    ensures { EachAtomicBoxHasOnePiece }
{}

/// The pieces of a line are of each inline box that is open at its start and of each that starts on it once, in order.
pub fn each_inline_box_has_one_piece()
    ensures { EachInlineBoxHasOnePiece }
{}

/// The pieces of a line are of each text of which a part stays on it, once.
pub fn each_text_has_one_piece()
    ensures some { EachTextOnALineHasAPiece }
    ensures once { NoTextHasTwoPieces }
{}

/// Each raise is the shift of the part of the line that an inline box or an atomic box is.
pub fn raises_are_shifts_of_parts()
    ensures { RaisesAreShiftsOfParts }
{}
