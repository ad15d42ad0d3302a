//! Laws of the definitions.

ghost use Rattle.lay_generator.specs.Laws.{GeneratedEditsFit, GeneratedNodesFit, GeneratedNodesStay, GeneratedRunsComeToOne};

/// No node of a generated run has a fault where it is put, whatever its size and its seed.
pub fn generated_nodes_fit()
    ensures { GeneratedNodesFit }
{}

/// No edit of a generated run has a fault, whichever of its editors' lists of edits came before.
pub fn generated_edits_fit()
    ensures { GeneratedEditsFit }
{}

/// The edits of a generated run leave its number of nodes.
pub fn generated_nodes_stay()
    ensures { GeneratedNodesStay }
{}

/// Where each list of edits is accepted, a generated run comes to the same document in whatever order its editors come.
pub fn generated_runs_come_to_one()
    ensures { GeneratedRunsComeToOne }
{}
