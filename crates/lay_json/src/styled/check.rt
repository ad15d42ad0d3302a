//! What is checked.

use lay_run::RunDoc;
use lay_units::Text;

/// A run, and the text that is to be its report, whoever wrote it.
#[derive(Drop)]
pub struct Check {
    pub run: RunDoc,
    pub report: Text,
}
