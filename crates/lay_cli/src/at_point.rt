//! The answer to `hit`.

ghost use Rattle.std.specs.Prelude.{◌≡◌, ◌≢◌, IfOk, None};
ghost use Rattle.lay_outside.specs.Outside.{Rose, IsDrained};
ghost use Rattle.lay_words.specs.declared.form.Form.TheVariants as form;
ghost use Rattle.lay_cli.specs.Answers.{Refuses, Reports};
ghost use Rattle.lay_cli.specs.Endings.{Ends};
ghost use Rattle.lay_cli.specs.Hits.{IsHitReport, IsSeen, point_at};
ghost use Rattle.lay_cli.specs.Input.{IsReadOut};

use crate::run_input::{Input, Lack, run_input};
use crate::status::Status;
use crate::telling::told;
use lay_frag::Frag;
use lay_hit::painted::solved_documents_are_painted_once;
use lay_hit::{Point, hit_line};
use lay_inherit::computed;
use lay_outside::{Sink, Source};
use lay_run::RunDoc;
use lay_units::{NoMemory, Text, Unit};
use std::alloc::Global;

/// Lays out the run document that the source has left, its editors taken as none, and writes which piece is seen at a
/// point of the page, which is given in px.
pub fn hit<S: Source, K: Sink>(
    alloc: Global,
    x: u32,
    y: u32,
    source: &mut S,
    sink: &mut K,
) -> Status
    ensures ends { Ends (Reports (form.Hit x y) (S.left source.old)) (Refuses (form.Hit x y) (S.left source.old)) result
        (record { taken = K.taken sink.old; faults = K.faults sink.old })
        (record { taken = K.taken sink.new; faults = K.faults sink.new }) None }
    ensures drained { result ≡ Status.Ok → IsDrained (S.left source.old) (S.left source.new) }
    ensures refused_read { result ≡ Status.Refused → IsReadOut (S.left source.old) (S.left source.new) }
    ensures read_fault { result ≡ Status.ReadFault
        → Rose (S.faults source.old) (S.faults source.new) × (K.taken sink.new ≡ K.taken sink.old) }
    ensures never_usage { result ≢ Status.Usage }
{
    match run_input(alloc, source) {
        Ok(Input::Run(run)) => seen(alloc, &run, point_at(x, y), sink),
        Ok(Input::Refusal(line)) => told(sink, line.as_str(), Status::Refused),
        Err(Lack::Failed) => Status::ReadFault,
        Err(Lack::NoMemory) => Status::NoMemory,
    }
}

/// Writes which piece of a run's document is seen at a point.
fn seen<K: Sink>(alloc: Global, run: &RunDoc, at: Point, sink: &mut K) -> Status
    ensures ends { Ends (λ kept text. (kept ≡ None) × IsHitReport run.now at text) (λ line. ⊥) result
        (record { taken = K.taken sink.old; faults = K.faults sink.old })
        (record { taken = K.taken sink.new; faults = K.faults sink.new }) None }
    ensures never_usage { result ≢ Status.Usage }
    ensures never_read_fault { result ≢ Status.ReadFault }
{
    match line_at(alloc, run, at) {
        Ok(line) => told(sink, line.as_str(), Status::Ok),
        Err(_) => Status::NoMemory,
    }
}

/// The line of the piece of a run's document that is seen at a point.
fn line_at(alloc: Global, run: &RunDoc, at: Point) -> Result<Text, NoMemory>
    ensures { IfOk result (IsHitReport run.now at) }
{
    let piece = piece_at(alloc, run, at)?;
    hit_line(alloc, piece)
}

/// The piece of a run's document that is seen at a point.
fn piece_at(alloc: Global, run: &RunDoc, at: Point) -> Result<Option<Frag>, NoMemory>
    ensures { IfOk result (IsSeen run.now at) }
{
    let doc = run.doc();
    let tree = lay_context::scratch(alloc, doc, run.face())?;
    let styles = computed(alloc, doc)?;
    // What is asked of a document holds of this one, and so its tree is painted once.
    doc.nodes();
    solved_documents_are_painted_once();
    let piece = lay_hit::hit(alloc, doc, &styles, &tree, at)?;
    Ok(piece)
}

/// A point of the page that is given in px.
fn point_at(x: u32, y: u32) -> Point
    ensures { result ≡ point_at x y }
{
    Point {
        x: Unit(i64::from(x) * 64),
        y: Unit(i64::from(y) * 64),
    }
}
