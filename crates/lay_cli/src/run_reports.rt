//! The reports of this engine are legal: of each report that is written of a core which answered its editors a check says
//! `yes`, and the trees in it are those of layouts from scratch (`specs/RunReports/Laws.antt`).

mod laws;

pub use laws::{
    published_trees_are_layouts, reached_trees_are_layouts, run_reports_are_legal,
    run_reports_are_yes,
};
