//! The editors of a run.

ghost use Rattle.std.specs.Prelude.{◌≡◌, ◌<◌, ◌≤◌, length, IfOk};
ghost use Rattle.std.specs.List.{All};
ghost use Rattle.lay_drive.specs.Runs.{AreRun, IsCalled, IsJobRun};

use crate::jobs::Job;
use crate::session::Session;
use lay_board::Pass;
use lay_history::edits::Cmd;
use lay_outside::{Gate, Point};
use std::alloc::AllocError;
use std::sync::Wait;
use std::thread;
use std::thread::Threads;

/// All editors, each on a thread of its own where one can be made; their passes, in their order. Once none is at work any more, the
/// workers are told so, also where memory was wanting and some never began.
pub(crate) fn edit_all<R: Threads + Wait + Sync, G: Gate + Sync>(
    rt: &R,
    session: &Session,
    jobs: Vec<Job>,
    gate: &G,
) -> Result<Vec<Pass>, AllocError>
    requires of { All (λ j. j.pass.table ≡ session.now.engine.table) jobs.items }
    requires left { All (λ j. length j.script ≤ j.pass.knows.left) jobs.items }
    ensures { IfOk result (λ v. AreRun jobs.items v.items) }
{
    let script = |job: Job| -> Pass
        requires { (job.pass.table ≡ session.now.engine.table) × (length job.script ≤ job.pass.knows.left) }
        ensures { IsJobRun job result }
    { edit(rt, session, job, gate) };
    let passes = thread::map_vec(rt, jobs, &script);
    session.progress.end(rt);
    passes
}

/// All commands of an editor, a call each, in order.
fn edit<R: Wait, G: Gate>(rt: &R, session: &Session, job: Job, gate: &G) -> Pass
    requires of { job.pass.table ≡ session.now.engine.table }
    requires left { length job.script ≤ job.pass.knows.left }
    ensures { IsJobRun job result }
{
    let Job { mut pass, script } = job;
    for command in script.into_vec() {
        pass = call(rt, session, pass, command, gate);
    }
    session.progress.tell(rt);
    pass
}

/// One call of an editor. The gate is told before and after it, and the workers that it has ended.
fn call<R: Wait, G: Gate>(rt: &R, session: &Session, pass: Pass, command: Cmd, gate: &G) -> Pass
    requires of { pass.table ≡ session.now.engine.table }
    requires left { 0 < pass.knows.left }
    ensures { IsCalled pass command result }
{
    let (editor, index) = (pass.editor(), pass.index());
    gate.at(Point::CallStart(editor, index));
    let pass = answer(rt, session, pass, command, gate);
    gate.at(Point::CallEnd(editor, index));
    session.progress.tell(rt);
    pass
}

/// The engine answers a command of an editor.
fn answer<R: Wait, G: Gate>(rt: &R, session: &Session, pass: Pass, command: Cmd, gate: &G) -> Pass
    requires of { pass.table ≡ session.now.engine.table }
    requires left { 0 < pass.knows.left }
    ensures { IsCalled pass command result }
{
    let (_reply, pass) = match command {
        Cmd::Edits(edits) => session.engine.edit(rt, pass, edits),
        Cmd::Latest => session.engine.latest(rt, session.alloc, pass, gate),
        Cmd::Sync => session.engine.sync(rt, session.alloc, pass, gate),
    };
    pass
}
