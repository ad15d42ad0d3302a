//! The answer to `check`.

ghost use Rattle.std.specs.Prelude.{◌≡◌, ◌≢◌, None};
ghost use Rattle.lay_outside.specs.Outside.{Rose, IsDrained};
ghost use Rattle.lay_words.specs.declared.form.Form.TheVariants as form;
ghost use Rattle.lay_audit.specs.Check.Judging.{IsVerdictOn};
ghost use Rattle.lay_cli.specs.Answers.{Refuses, Reports};
ghost use Rattle.lay_cli.specs.Endings.{Ends};
ghost use Rattle.lay_cli.specs.Input.{IsReadOut};

use crate::check_input::{CheckInput, check_input};
use crate::run_input::Lack;
use crate::status::Status;
use crate::telling::told;
use lay_audit::check::verdict_on;
use lay_json::styled::Check;
use lay_outside::{Sink, Source};
use std::alloc::Global;

/// Judges the report that stands beside the run document which the source has left, and writes the verdict. Nothing that the
/// report says is trusted.
pub fn check<S: Source, K: Sink>(alloc: Global, source: &mut S, sink: &mut K) -> Status
    ensures ends { Ends (Reports form.Check (S.left source.old)) (Refuses form.Check (S.left source.old)) result
        (record { taken = K.taken sink.old; faults = K.faults sink.old })
        (record { taken = K.taken sink.new; faults = K.faults sink.new }) None }
    ensures drained { result ≡ Status.Ok → IsDrained (S.left source.old) (S.left source.new) }
    ensures refused_read { result ≡ Status.Refused → IsReadOut (S.left source.old) (S.left source.new) }
    ensures read_fault { result ≡ Status.ReadFault
        → Rose (S.faults source.old) (S.faults source.new) × (K.taken sink.new ≡ K.taken sink.old) }
    ensures never_usage { result ≢ Status.Usage }
{
    match check_input(alloc, source) {
        Ok(CheckInput::Asked(asked)) => judged(alloc, &asked, sink),
        Ok(CheckInput::Refusal(line)) => told(sink, line.as_str(), Status::Refused),
        Err(Lack::Failed) => Status::ReadFault,
        Err(Lack::NoMemory) => Status::NoMemory,
    }
}

/// Judges a report, and writes the verdict.
fn judged<K: Sink>(alloc: Global, check: &Check, sink: &mut K) -> Status
    ensures ends { Ends (λ kept text. (kept ≡ None) × IsVerdictOn check.now text) (λ line. ⊥) result
        (record { taken = K.taken sink.old; faults = K.faults sink.old })
        (record { taken = K.taken sink.new; faults = K.faults sink.new }) None }
    ensures never_usage { result ≢ Status.Usage }
    ensures never_read_fault { result ≢ Status.ReadFault }
{
    match verdict_on(alloc, check) {
        Ok(line) => told(sink, line.as_str(), Status::Ok),
        Err(_) => Status::NoMemory,
    }
}
