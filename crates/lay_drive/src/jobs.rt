//! What each editor of a run has to do.

ghost use Rattle.std.specs.Prelude.{◌≡◌, ◌≤◌, length, map, IfOk};
ghost use Rattle.std.specs.List.{All};

use lay_board::Pass;
use lay_history::edits::CmdList;
use lay_run::ScriptList;
use lay_units::NoMemory;
use std::alloc::Global;
use std::collections::VecDeque;

/// A pass, and the commands that its editor gives.
#[derive(Drop)]
pub(crate) struct Job {
    pub(crate) pass: Pass,
    pub(crate) script: CmdList,
}

/// How many commands each script has.
pub(crate) fn counts(alloc: Global, scripts: &[CmdList]) -> Result<Vec<u32>, NoMemory>
    requires few { All (λ s. length s ≤ 8192) scripts.now }
    ensures { IfOk result (λ v. v.items ≡ map length scripts.now) }
{
    let mut counts = Vec::with_capacity(alloc, scripts.len())?;
    for script in scripts {
        counts.push(script.len() as u32)?;
    }
    Ok(counts)
}

/// Each pass with the script of its place.
pub(crate) fn paired(
    alloc: Global,
    passes: Vec<Pass>,
    scripts: ScriptList,
) -> Result<Vec<Job>, NoMemory>
    requires { length passes.items ≡ length scripts }
    ensures passes { IfOk result (λ v. map (λ j. j.pass) v.items ≡ passes.items) }
    ensures scripts { IfOk result (λ v. map (λ j. j.script) v.items ≡ scripts) }
{
    let mut jobs = Vec::with_capacity(alloc, passes.len())?;
    let mut scripts = VecDeque::from_vec(scripts.into_vec());
    for pass in passes {
        let Some(script) = scripts.pop_front() else {
            unreachable!()
        };
        jobs.push(Job { pass, script })?;
    }
    Ok(jobs)
}
