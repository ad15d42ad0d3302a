//! A run: its editors on threads of their own beside workers, over one engine.
//!
//! `drive` starts an engine with a pass for each script, and has each editor make its calls on a thread of its own. Meanwhile workers, each
//! on a thread of its own too, claim cells by the batch, compute them and steal from each other. Once all editors have ended and the
//! workers have nothing to do, it closes the engine and publishes the last version. Its contract is in the words of
//! lay_history: whatever comes first, the history answers each editor's commands once and in order (`AnswersScripts`), and its last
//! version is published (`IsWhole`). What the passes know at the end shows the first (law `passes_answer_scripts`).
#![tactic(auto)]

mod editors;
mod jobs;
mod laws;
mod progress;
mod run;
mod session;
mod workers;

pub use laws::passes_answer_scripts;
pub use run::drive;
