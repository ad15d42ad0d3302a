//! The answers to `run` and `gen`.

ghost use Rattle.std.specs.Prelude.{◌≡◌, ◌≢◌, ◌<◌, ◌≤◌, ◌^◌, IfOk, None};
ghost use Rattle.lay_history.specs.Legal.{IsWhole};
ghost use Rattle.lay_outside.specs.Outside.{Rose, IsDrained};
ghost use Rattle.lay_words.specs.declared.form.Form.TheVariants as form;
ghost use Rattle.lay_cli.specs.Answers.{IsRunReport, IsSummary, IsSummaryOf, OfKept, Refuses, Reports};
ghost use Rattle.lay_cli.specs.Endings.{Ends};
ghost use Rattle.lay_cli.specs.Input.{IsReadOut};

use crate::laws::summaries_come_of_numbers;
use crate::means::Means;
use crate::run_input::{Input, Lack, run_input};
use crate::status::Status;
use crate::telling::{status_of, told};
use lay_core::Core;
use lay_drive::drive;
use lay_generator::{generated_run, run_summary};
use lay_outside::{Gate, Sink, Source, write_all};
use lay_report::write_run;
use lay_run::RunDoc;
use lay_units::{NoMemory, Text};
use std::alloc::Global;
use std::sync::Wait;
use std::thread::Threads;

/// What `gen` is asked for: the size and the seed of a run, and the number of workers.
#[derive(Clone, Copy)]
pub(crate) struct Generation {
    pub(crate) size: u32,
    pub(crate) seed: u32,
    pub(crate) workers: u32,
}

/// Drives the editors of the run document that the source has left, writes the report and keeps the core.
pub(crate) fn run<R: Threads + Wait + Sync, S: Source, K: Sink, G: Gate + Sync>(
    means: &Means<R, G>,
    workers: u32,
    source: &mut S,
    sink: &mut K,
    kept: &mut Option<Core>,
) -> Status
    requires workers { (0 < workers) × (workers ≤ 16) }
    requires kept { kept.old ≡ None }
    ensures ends { Ends (Reports (form.Run workers) (S.left source.old)) (Refuses (form.Run workers) (S.left source.old)) result
        (record { taken = K.taken sink.old; faults = K.faults sink.old })
        (record { taken = K.taken sink.new; faults = K.faults sink.new }) kept.new }
    ensures drained { result ≡ Status.Ok → IsDrained (S.left source.old) (S.left source.new) }
    ensures refused_read { result ≡ Status.Refused → IsReadOut (S.left source.old) (S.left source.new) }
    ensures read_fault { result ≡ Status.ReadFault
        → Rose (S.faults source.old) (S.faults source.new) × (K.taken sink.new ≡ K.taken sink.old) }
    ensures never_usage { result ≢ Status.Usage }
{
    match run_input(means.alloc, source) {
        Ok(Input::Run(run)) => driven(means, run, workers, sink, kept),
        Ok(Input::Refusal(line)) => told(sink, line.as_str(), Status::Refused),
        Err(Lack::Failed) => Status::ReadFault,
        Err(Lack::NoMemory) => Status::NoMemory,
    }
}

/// Drives the editors of a run, writes the report and keeps the core.
fn driven<R: Threads + Wait + Sync, K: Sink, G: Gate + Sync>(
    means: &Means<R, G>,
    run: RunDoc,
    workers: u32,
    sink: &mut K,
    kept: &mut Option<Core>,
) -> Status
    requires workers { (0 < workers) × (workers ≤ 16) }
    requires kept { kept.old ≡ None }
    ensures ends { Ends (λ kept text. OfKept kept (λ s. IsRunReport run s text)) (λ line. ⊥) result
        (record { taken = K.taken sink.old; faults = K.faults sink.old })
        (record { taken = K.taken sink.new; faults = K.faults sink.new }) kept.new }
    ensures never_usage { result ≢ Status.Usage }
    ensures never_read_fault { result ≢ Status.ReadFault }
{
    let core = match drive(means.rt, means.alloc, run, workers, means.gate) {
        Ok(core) => core,
        Err(_) => return Status::NoMemory,
    };
    match write_run(
        means.alloc,
        core.history(),
        core.trees(),
        claims_of(&core),
        sink,
    ) {
        Ok(()) => {
            *kept = Some(core);
            Status::Ok
        }
        Err(fault) => status_of(fault),
    }
}

/// How many claims a core granted.
fn claims_of(core: &Core) -> u64
    ensures value { result ≡ core.now.laid }
    ensures within { core.now.laid < 2 ^ 64 }
{
    core.laid()
}

/// Drives the editors of the run that the generator makes, writes the summary and keeps the core.
pub(crate) fn generate<R: Threads + Wait + Sync, K: Sink, G: Gate + Sync>(
    means: &Means<R, G>,
    asked: Generation,
    sink: &mut K,
    kept: &mut Option<Core>,
) -> Status
    requires size { asked.size ≤ 1000 }
    requires seed { asked.seed < 2 ^ 31 }
    requires workers { (0 < asked.workers) × (asked.workers ≤ 16) }
    requires kept { kept.old ≡ None }
    ensures ends { Ends (λ kept text. OfKept kept (λ s. IsSummary asked.size asked.seed s text)) (λ line. ⊥) result
        (record { taken = K.taken sink.old; faults = K.faults sink.old })
        (record { taken = K.taken sink.new; faults = K.faults sink.new }) kept.new }
    ensures never_refused { result ≢ Status.Refused }
    ensures never_usage { result ≢ Status.Usage }
    ensures never_read_fault { result ≢ Status.ReadFault }
{
    match summarized(means, asked) {
        Ok((core, text)) => match write_all(sink, text.as_str().as_bytes()) {
            Ok(()) => {
                *kept = Some(core);
                Status::Ok
            }
            Err(_) => Status::WriteFault,
        },
        Err(_) => Status::NoMemory,
    }
}

/// The core that answered the editors of the generated run, and the summary of that run.
fn summarized<R: Threads + Wait + Sync, G: Gate + Sync>(
    means: &Means<R, G>,
    asked: Generation,
) -> Result<(Core, Text), NoMemory>
    requires size { asked.size ≤ 1000 }
    requires seed { asked.seed < 2 ^ 31 }
    requires workers { (0 < asked.workers) × (asked.workers ≤ 16) }
    ensures { IfOk result (λ r. IsSummary asked.size asked.seed r.0 r.1) }
{
    summaries_come_of_numbers();
    let run = generated_run(means.alloc, asked.size, asked.seed)?;
    let core = drive(means.rt, means.alloc, run, asked.workers, means.gate)?;
    let text = last_summary(means.alloc, &core)?;
    Ok((core, text))
}

/// The summary of a core whose last version is published.
fn last_summary(alloc: Global, core: &Core) -> Result<Text, NoMemory>
    requires { IsWhole core.now.history }
    ensures { IfOk result (IsSummaryOf core.now) }
{
    match core.tree(core.accepted()) {
        Some(tree) => run_summary(alloc, core.doc().len() as u64, core.accepted(), tree),
        None => unreachable!(),
    }
}
