//! Style sheets: the text of a sheet, its rule sets, their selectors and declarations (CSS 2.2, chapters 4 and 5).
//!
//! The contract of `read_sheet` cites `IsSheet` of `specs/Sheets.antt`, a grammar of statements, rule sets
//! and declarations over the text as `specs/PlainText.antt` sees it, without what stands in strings, escapes
//! and comments. How selectors are written is `specs/SelectorTexts.antt`. Each text is just one sheet (laws
//! `some_sheet` and `one_sheet`), the laws of `specs/Laws.antt` say how its pieces end, and a sheet printed as
//! `specs/Printing.antt` says reads as itself.
#![tactic(auto)]

mod declaration;
mod laws;
mod pieces;
mod plain;
mod rule;
mod selector;
mod selector_text;
mod sheet;

pub use declaration::SheetDecl;
pub use laws::{
    at_rule_says_nothing, comment_is_space, escape_hides, one_sheet, open_block_ends,
    open_comment_ends, open_string_ends, printed_sheet_reads, sheets_follow, some_sheet,
    string_hides,
};
pub use rule::Rule;
pub use selector::{Joint, Name, Selector, Simple, Step};
pub use sheet::{Sheet, read_sheet, selectors};
