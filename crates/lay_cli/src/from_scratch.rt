//! The answer to `scratch`.

ghost use Rattle.std.specs.Prelude.{◌≡◌, ◌≢◌, None};
ghost use Rattle.lay_outside.specs.Outside.{Rose, IsDrained};
ghost use Rattle.lay_words.specs.declared.form.Form.TheVariants as form;
ghost use Rattle.lay_cli.specs.Answers.{IsScratchReport, Refuses, Reports};
ghost use Rattle.lay_cli.specs.Endings.{Ends};
ghost use Rattle.lay_cli.specs.Input.{IsReadOut};

use crate::run_input::{Input, Lack, run_input};
use crate::status::Status;
use crate::telling::{status_of, told};
use lay_outside::{Sink, Source};
use lay_report::write_scratch;
use lay_run::RunDoc;
use std::alloc::Global;
use std::mem::forget;

/// Lays out the run document that the source has left, its editors taken as none, and writes the report.
pub fn scratch<S: Source, K: Sink>(alloc: Global, source: &mut S, sink: &mut K) -> Status
    ensures ends { Ends (Reports form.Scratch (S.left source.old)) (Refuses form.Scratch (S.left source.old)) result
        (record { taken = K.taken sink.old; faults = K.faults sink.old })
        (record { taken = K.taken sink.new; faults = K.faults sink.new }) None }
    ensures drained { result ≡ Status.Ok → IsDrained (S.left source.old) (S.left source.new) }
    ensures refused_read { result ≡ Status.Refused → IsReadOut (S.left source.old) (S.left source.new) }
    ensures read_fault { result ≡ Status.ReadFault
        → Rose (S.faults source.old) (S.faults source.new) × (K.taken sink.new ≡ K.taken sink.old) }
    ensures never_usage { result ≢ Status.Usage }
{
    match run_input(alloc, source) {
        Ok(Input::Run(run)) => laid_out(alloc, &run, sink),
        Ok(Input::Refusal(line)) => told(sink, line.as_str(), Status::Refused),
        Err(Lack::Failed) => Status::ReadFault,
        Err(Lack::NoMemory) => Status::NoMemory,
    }
}

/// Lays out a run's document, and writes the report.
fn laid_out<K: Sink>(alloc: Global, run: &RunDoc, sink: &mut K) -> Status
    ensures ends { Ends (λ kept text. (kept ≡ None) × IsScratchReport run.now text) (λ line. ⊥) result
        (record { taken = K.taken sink.old; faults = K.faults sink.old })
        (record { taken = K.taken sink.new; faults = K.faults sink.new }) None }
    ensures never_usage { result ≢ Status.Usage }
    ensures never_read_fault { result ≢ Status.ReadFault }
{
    let tree = match lay_context::last_scratch(alloc, run.doc(), run.face()) {
        Ok(tree) => tree,
        Err(_) => return Status::NoMemory,
    };
    let written = write_scratch(alloc, &tree, sink);
    // The program ends, and the system takes the tree with all its memory.
    forget(tree);
    match written {
        Ok(()) => Status::Ok,
        Err(fault) => status_of(fault),
    }
}
