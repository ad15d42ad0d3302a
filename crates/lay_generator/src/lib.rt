//! Generated runs: from a size and a seed to a run document's document, face and scripts, and the summary of such a run.
//!
//! The contracts cite `generated` of `specs/Generated.antt`, which stands on the draws of `specs/Draws.antt`, the nodes of
//! `specs/Nodes.antt` and the commands of `specs/Commands.antt`; and `summary` of `specs/Summary.antt`. `specs/Laws.antt` says
//! that no node of such a run has a fault.
#![tactic(auto)]

mod batches;
mod commands;
mod draws;
mod generated;
mod laws;
mod nodes;
mod summary;

pub use generated::generated_run;
pub use laws::{
    generated_edits_fit, generated_nodes_fit, generated_nodes_stay, generated_runs_come_to_one,
};
pub use summary::run_summary;
