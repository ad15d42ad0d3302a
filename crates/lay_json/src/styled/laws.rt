//! Laws of the definitions. The functions do nothing.

ghost use Rattle.lay_json.specs.Styled.Laws.{OneStyledCheck, OneStyledReading, RunsAreStyledBesideReports};

/// Bytes have one styled reading: a run, or a first fault.
pub fn one_styled_reading()
    ensures { OneStyledReading }
{}

/// Bytes have one styled check: a run with a report, or a first fault.
pub fn one_styled_check()
    ensures { OneStyledCheck }
{}

/// A run document is styled alike by itself and beside a report.
pub fn runs_are_styled_beside_reports()
    ensures { RunsAreStyledBesideReports }
{}
