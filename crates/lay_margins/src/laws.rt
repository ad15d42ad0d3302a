//! Laws of the definitions. The functions do nothing.

ghost use Rattle.lay_margins.specs.Laws.{OneStrut, OneListOfRuns};

/// One strut holds given margins.
pub fn one_strut()
    ensures { OneStrut }
{}

/// The edges of a block formatting context have one list of runs.
pub fn one_list_of_runs()
    ensures { OneListOfRuns }
{}
