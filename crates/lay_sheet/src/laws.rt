//! Laws of the text of a sheet.

ghost use Rattle.lay_sheet.specs.Laws.{StringHides, CommentIsSpace, EscapeHides, OneSheet, SomeSheet};
ghost use Rattle.lay_sheet.specs.Laws.{OpenStringEnds, OpenCommentEnds, OpenBlockEnds, SheetsFollow, AtRuleSaysNothing};
ghost use Rattle.lay_sheet.specs.Laws.{PrintedSheetReads};

/// What stands in a string isn't seen.
pub fn string_hides()
    ensures { StringHides }
{}

/// A comment is seen as one space.
pub fn comment_is_space()
    ensures { CommentIsSpace }
{}

/// What stands behind a backslash isn't seen.
pub fn escape_hides()
    ensures { EscapeHides }
{}

/// A text is one sheet at most.
pub fn one_sheet()
    ensures { OneSheet }
{}

/// Each text is a sheet.
pub fn some_sheet()
    ensures { SomeSheet }
{}

/// A string that is open at the end of a text ends there.
pub fn open_string_ends()
    ensures { OpenStringEnds }
{}

/// A comment that is open at the end of a text ends there.
pub fn open_comment_ends()
    ensures { OpenCommentEnds }
{}

/// A block that is open at the end of a text ends there.
pub fn open_block_ends()
    ensures { OpenBlockEnds }
{}

/// A sheet that ends with the brace of its last statement, and another sheet after it, are both.
pub fn sheets_follow()
    ensures { SheetsFollow }
{}

/// A statement that begins with `@` ends with its first semicolon, and what stands behind it is a sheet by itself.
pub fn at_rule_says_nothing()
    ensures { AtRuleSaysNothing }
{}

/// A sheet that is printed in the grammar of the standard reads as the rule sets that were printed.
pub fn printed_sheet_reads()
    ensures { PrintedSheetReads }
{}
