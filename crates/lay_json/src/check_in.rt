//! What a check is asked of.

use crate::sheet_in::SheetIn;
use lay_run::RunDoc;
use lay_units::Text;

/// A run document with its sheet, and the text that is to be its report, whoever wrote it.
#[derive(Drop)]
pub struct CheckIn {
    pub run: RunDoc,
    pub sheet: SheetIn,
    pub report: Text,
}
