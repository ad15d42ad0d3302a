//! Laws of the definitions. The functions do nothing.

ghost use Rattle.lay_json.specs.Laws.{OneReading, OneInput, OneCheck, NodesAreCounted, RunsReadBesideReports};

/// Bytes have one reading: a run, or a first fault.
pub fn one_reading()
    ensures { OneReading }
{}

/// The number of a node is the number of nodes that are read before it.
pub fn nodes_are_counted()
    ensures { NodesAreCounted }
{}

/// Bytes say one run with one sheet, or have one first fault.
pub fn one_input()
    ensures { OneInput }
{}

/// Bytes say one check, or have one first fault.
pub fn one_check()
    ensures { OneCheck }
{}

/// A run document reads the same by itself and beside a report.
pub fn runs_read_beside_reports()
    ensures { RunsReadBesideReports }
{}
