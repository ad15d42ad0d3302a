//! A run from its document to its core.

ghost use Rattle.std.specs.Prelude.{◌≡◌, ◌<◌, ◌≤◌, length, IfOk};
ghost use Rattle.std.specs.List.{All};
ghost use Rattle.lay_history.specs.Calls.{AnswersScripts};
ghost use Rattle.lay_history.specs.Legal.{IsWhole};
ghost use Rattle.lay_drive.specs.Runs.{AreRun};

use crate::editors::edit_all;
use crate::jobs::{Job, counts, paired};
use crate::progress::Progress;
use crate::session::Session;
use crate::workers::work_all;
use lay_board::{Engine, Pass, Passes};
use lay_core::Core;
use lay_outside::Gate;
use lay_pool::{Hand, hands};
use lay_run::RunDoc;
use lay_units::NoMemory;
use std::alloc::{AllocError, Global};
use std::sync::Wait;
use std::thread;
use std::thread::Threads;

/// The core that answered the commands of a run's editors, each of which gives its commands in order on a thread of its own, beside so many
/// workers, 1 to 16. Its document began as the run's, its face is the run's, and its last version is published. The gate is told of the
/// start and the end of each call and of the layout of each claim. Where no thread can be made, the calling one does its work.
pub fn drive<R: Threads + Wait + Sync, G: Gate + Sync>(
    rt: &R,
    alloc: Global,
    run: RunDoc,
    workers: u32,
    gate: &G,
) -> Result<Core, NoMemory>
    requires { (0 < workers) × (workers ≤ 16) }
    ensures init { IfOk result (λ c. c.init ≡ run.doc) }
    ensures face { IfOk result (λ c. c.face ≡ run.face) }
    ensures scripts { IfOk result (λ c. AnswersScripts c.history run.scripts) }
    ensures whole { IfOk result (λ c. IsWhole c.history) }
{
    let (doc, face, scripts, _listed) = run.into_parts();
    let calls = scripts.commands() as u32;
    let counts = counts(alloc, scripts.as_slice())?;
    let (engine, passes) = Engine::start(alloc, doc, face, counts, calls)?;
    let Passes { closer, items } = passes;
    let jobs = paired(alloc, items, scripts)?;
    let hands = hands(alloc, workers)?;
    let session = Session {
        engine,
        progress: Progress::new(),
        alloc,
    };
    let items = run_all(rt, &session, hands, jobs, gate)?;
    let Session { engine, .. } = session;
    let Ok(mut core) = engine.close(rt, Passes { closer, items }) else {
        unreachable!()
    };
    core.refresh()?;
    Ok(core)
}

/// All editors beside the workers, until both have ended; the passes of the editors, in their order.
fn run_all<R: Threads + Wait + Sync, G: Gate + Sync>(
    rt: &R,
    session: &Session,
    hands: Vec<Hand>,
    jobs: Vec<Job>,
    gate: &G,
) -> Result<Vec<Pass>, AllocError>
    requires of { All (λ j. j.pass.table ≡ session.now.engine.table) jobs.items }
    requires left { All (λ j. length j.script ≤ j.pass.knows.left) jobs.items }
    ensures { IfOk result (λ v. AreRun jobs.items v.items) }
{
    // the workers come last where no thread can be made for them, and so once all editors have ended
    let ((), passes) = thread::join(
        rt,
        move || -> () { work_all(rt, session, hands, gate) },
        move || -> Result<Vec<Pass>, AllocError>
            requires { All (λ j. j.pass.table ≡ session.now.engine.table) jobs.items
                × All (λ j. length j.script ≤ j.pass.knows.left) jobs.items }
            ensures { IfOk result (λ v. AreRun jobs.items v.items) }
        { edit_all(rt, session, jobs, gate) },
    );
    passes
}
