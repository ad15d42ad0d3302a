//! The call that the program makes.

ghost use Rattle.std.specs.Prelude.{◌≡◌, ◌≢◌, ◌⊎◌, ℕ, List, codes, None, IfSome};
ghost use Rattle.lay_outside.specs.Outside.{Rose, Took, TookFront, IsFaultless};
ghost use Rattle.lay_words.specs.declared.form.Form.{Form};
ghost use Rattle.lay_words.specs.declared.form.Form.TheVariants as form;
ghost use Rattle.lay_words.specs.Grammar.{IsFormInRange};
ghost use Rattle.lay_cli.specs.Answers.{AreRead, HaveForm, HaveNoForm, IsAskedWell, IsReader, IsRefused, Refuses, Reports};
ghost use Rattle.lay_cli.specs.Endings.{Ends, TookFrontOf, TookWhole};
ghost use Rattle.lay_cli.specs.Input.{IsReadOut};

use crate::at_point::hit;
use crate::checking::check;
use crate::drive::{Generation, generate, run};
use crate::exit::Exit;
use crate::from_scratch::scratch;
use crate::means::Means;
use crate::status::Status;
use crate::telling::told;
use lay_core::Core;
use lay_outside::{Gate, Sink, Source};
use lay_words::{Form, read_words};
use std::sync::Wait;
use std::thread::Threads;

/// Answers the words. `scratch` lays out the run document that the source has left, its editors taken as none; `run` drives
/// its editors; `gen` drives those of the run that the generator makes, and reads nothing; `hit` lays out as `scratch` does,
/// and names the piece that is seen at a point; `check` judges the report that stands beside a run document. The answer goes
/// into the sink, or else the line of the bytes' first fault. After `run` and `gen` with the status Ok the core that the report
/// is of is kept. Only these two start threads, and wait.
pub fn top<R: Threads + Wait + Sync, S: Source, K: Sink, G: Gate + Sync>(
    means: &Means<R, G>,
    words: &[String],
    source: &mut S,
    sink: &mut K,
    kept: &mut Option<Core>,
) -> Exit
    requires nothing_kept { kept.old ≡ None }

    // What was written is the report for the words and the bytes, of the core that is kept.
    ensures ok { result ≡ Status.Ok → (asked : Form) × HaveForm words.now asked × AreRead asked (S.left source.old) (S.left source.new)
        × TookWhole (Reports asked (S.left source.old) kept.new)
        (record { taken = K.taken sink.old; faults = K.faults sink.old })
        (record { taken = K.taken sink.new; faults = K.faults sink.new }) }
    ensures kept { result ≢ Status.Ok → kept.new ≡ None }
    ensures refused { result ≡ Status.Refused → (asked : Form) × HaveForm words.now asked
        × TookWhole (Refuses asked (S.left source.old))
        (record { taken = K.taken sink.old; faults = K.faults sink.old })
        (record { taken = K.taken sink.new; faults = K.faults sink.new }) }
    ensures refused_read { result ≡ Status.Refused → IsReadOut (S.left source.old) (S.left source.new) }
    ensures usage { result ≡ Status.Usage → HaveNoForm words.now × Took (K.taken sink.old) (K.taken sink.new) (codes "usage\n") }
    ensures read_fault { result ≡ Status.ReadFault
        → Rose (S.faults source.old) (S.faults source.new) × (K.taken sink.new ≡ K.taken sink.old) }
    ensures write_fault { result ≡ Status.WriteFault → Rose (K.faults sink.old) (K.faults sink.new) }

    // After a fault of the sink and for want of memory it has a front of an answer, or nothing.
    ensures front { result ≡ Status.WriteFault → (asked : Form) → HaveForm words.now asked
        → TookFrontOf (Reports asked (S.left source.old)) (Refuses asked (S.left source.old))
        (record { taken = K.taken sink.old; faults = K.faults sink.old })
        (record { taken = K.taken sink.new; faults = K.faults sink.new }) }
    ensures usage_front { result ≡ Status.WriteFault → HaveNoForm words.now
        → TookFront (K.taken sink.old) (K.taken sink.new) (codes "usage\n") }
    ensures no_memory { result ≡ Status.NoMemory → (K.taken sink.new ≡ K.taken sink.old) ⊎ ((asked : Form) × HaveForm words.now asked
        × TookFrontOf (Reports asked (S.left source.old)) (Refuses asked (S.left source.old))
        (record { taken = K.taken sink.old; faults = K.faults sink.old })
        (record { taken = K.taken sink.new; faults = K.faults sink.new })) }

    // Wrong words and `gen` read nothing.
    ensures unread { HaveNoForm words.now → (S.left source.new ≡ S.left source.old) × (S.faults source.new ≡ S.faults source.old) }
    ensures gen_reads_none { (size seed workers : ℕ) → HaveForm words.now (form.Gen size seed workers)
        → (S.left source.new ≡ S.left source.old) × (S.faults source.new ≡ S.faults source.old) }
    ensures wrong_words { HaveNoForm words.now → (result ≡ Status.Usage) ⊎ (result ≡ Status.WriteFault) ⊎ (result ≡ Status.NoMemory) }

    // Without faults of the streams, bytes that spell a run have its report and others their refusal, but for want of memory;
    // and a generated run has its summary.
    ensures complete { (asked : Form) → HaveForm words.now asked → IsFaultless (S.faults source.old) (S.faults source.new)
        → IsFaultless (K.faults sink.old) (K.faults sink.new)
        → IfSome (S.left source.old) (λ bytes. IsAskedWell asked bytes → (result ≡ Status.Ok) ⊎ (result ≡ Status.NoMemory)) }
    ensures gen_complete { (size seed workers : ℕ) → HaveForm words.now (form.Gen size seed workers)
        → IsFaultless (K.faults sink.old) (K.faults sink.new)
        → (result ≡ Status.Ok) ⊎ (result ≡ Status.NoMemory) }
    ensures refuses { (asked : Form) → HaveForm words.now asked → IsFaultless (S.faults source.old) (S.faults source.new)
        → IsFaultless (K.faults sink.old) (K.faults sink.new)
        → IfSome (S.left source.old)
        (λ bytes. (line : List ℕ) → IsRefused asked bytes line → (result ≡ Status.Refused) ⊎ (result ≡ Status.NoMemory)) }
{
    match read_words(means.alloc, words) {
        Ok(Some(form)) => Exit {
            status: asked(means, form, source, sink, kept),
        },
        Ok(None) => Exit {
            status: told(sink, "usage\n", Status::Usage),
        },
        Err(_) => Exit {
            status: Status::NoMemory,
        },
    }
}

/// Answers words of this form.
fn asked<R: Threads + Wait + Sync, S: Source, K: Sink, G: Gate + Sync>(
    means: &Means<R, G>,
    wanted: Form,
    source: &mut S,
    sink: &mut K,
    kept: &mut Option<Core>,
) -> Status
    requires range { IsFormInRange wanted }
    requires kept { kept.old ≡ None }
    ensures ends { Ends (Reports wanted (S.left source.old)) (Refuses wanted (S.left source.old)) result
        (record { taken = K.taken sink.old; faults = K.faults sink.old })
        (record { taken = K.taken sink.new; faults = K.faults sink.new }) kept.new }
    ensures read { result ≡ Status.Ok → AreRead wanted (S.left source.old) (S.left source.new) }
    ensures refused_read { result ≡ Status.Refused → IsReadOut (S.left source.old) (S.left source.new) }
    ensures read_fault { result ≡ Status.ReadFault
        → IsReader wanted × Rose (S.faults source.old) (S.faults source.new) × (K.taken sink.new ≡ K.taken sink.old) }
    ensures never_usage { result ≢ Status.Usage }
    ensures gen_reads_none { (size seed workers : ℕ) → wanted ≡ form.Gen size seed workers
        → (S.left source.new ≡ S.left source.old) × (S.faults source.new ≡ S.faults source.old) }
{
    match wanted {
        Form::Scratch => scratch(means.alloc, source, sink),
        Form::Run { workers } => run(means, workers, source, sink, kept),
        Form::Gen {
            size,
            seed,
            workers,
        } => {
            let asked = Generation {
                size,
                seed,
                workers,
            };
            generate(means, asked, sink, kept)
        }
        Form::Hit { x, y } => hit(means.alloc, x, y, source, sink),
        Form::Check => check(means.alloc, source, sink),
    }
}
