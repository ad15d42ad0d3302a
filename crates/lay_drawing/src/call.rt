//! The call that the program makes.

ghost use Rattle.std.specs.Prelude.{◌≡◌, ◌≢◌, ◌⊎◌, ℕ, List, codes, Some, IfSome};
ghost use Rattle.lay_outside.specs.Outside.{Rose, Took, TookFront, IsDrained};
ghost use Rattle.lay_drawing.specs.Words.{AskFor, AreWrong};
ghost use Rattle.lay_drawing.specs.Answers.{IsPicture, IsRefusal, IsDrawingAnswer};

use crate::answer::{Answer, Lack, answer_to};
use crate::words::{Wish, read_words};
use lay_outside::{Sink, Source, write_all};
use std::alloc::Global;

/// How a call ended.
#[derive(Clone, Copy, Debug)]
pub enum Ending {
    /// The source was read to its end, and the whole picture was written.
    Drawn,
    /// The report is refused, or it doesn't show the version, and the line that says so was written.
    Refused,
    /// The words are wrong, nothing was read, and the line `usage` was written.
    Usage,
    /// A read failed, and nothing was written.
    ReadFault,
    /// A write failed. What was written is the front of an answer.
    WriteFault,
    /// Memory ran out, and nothing was written.
    NoMemory,
}

impl Ending {
    ghost use Rattle.lay_drawing.specs.Endings.{number_of};

    /// The number that the program ends with.
    pub fn number(self) -> u8
        ensures { result ≡ number_of self }
    {
        match self {
            Ending::Drawn => 0,
            Ending::Refused => 1,
            Ending::Usage => 2,
            Ending::ReadFault => 3,
            Ending::WriteFault => 4,
            Ending::NoMemory => 5,
        }
    }
}

/// Reads the report that the source has left and writes a picture of the tree that the words ask for, or of what two trees
/// differ in, into the sink; or writes the line that names the first line which is none of a report, or the version that isn't shown.
pub fn draw<S: Source, K: Sink>(
    alloc: Global,
    words: &[String],
    source: &mut S,
    sink: &mut K,
) -> Ending
    // The picture is that of the pieces which the report's lines spell, or of the differences of two such trees, and nothing is left.
    ensures drawn { result ≡ Ending.Drawn → (wish : Wish) × AskFor words.now wish × IsDrained (S.left source.old) (S.left source.new)
        × IfSome (S.left source.old)
        (λ bytes. (text : List ℕ) × IsPicture bytes wish text × Took (K.taken sink.old) (K.taken sink.new) text) }
    ensures refused { result ≡ Ending.Refused → (wish : Wish) × AskFor words.now wish
        × IfSome (S.left source.old)
        (λ bytes. (line : List ℕ) × IsRefusal bytes wish line × Took (K.taken sink.old) (K.taken sink.new) line) }
    ensures usage { result ≡ Ending.Usage → AreWrong words.now × Took (K.taken sink.old) (K.taken sink.new) (codes "usage\n") }
    ensures read_fault { result ≡ Ending.ReadFault
        → Rose (S.faults source.old) (S.faults source.new) × (K.taken sink.new ≡ K.taken sink.old) }
    ensures write_fault { result ≡ Ending.WriteFault → Rose (K.faults sink.old) (K.faults sink.new) }
    ensures no_memory { result ≡ Ending.NoMemory → K.taken sink.new ≡ K.taken sink.old }

    // After a fault of the sink it has a front of an answer.
    ensures front { result ≡ Ending.WriteFault → (wish : Wish) → AskFor words.now wish
        → IfSome (S.left source.old)
        (λ bytes. (text : List ℕ) × IsDrawingAnswer bytes wish text × TookFront (K.taken sink.old) (K.taken sink.new) text) }
    ensures usage_front { result ≡ Ending.WriteFault → AreWrong words.now
        → TookFront (K.taken sink.old) (K.taken sink.new) (codes "usage\n") }

    // Wrong words read nothing.
    ensures unread { AreWrong words.now → (S.left source.new ≡ S.left source.old) × (S.faults source.new ≡ S.faults source.old) }
    ensures wrong_words { AreWrong words.now → (result ≡ Ending.Usage) ⊎ (result ≡ Ending.WriteFault) ⊎ (result ≡ Ending.NoMemory) }
{
    match read_words(alloc, words) {
        Ok(Some(wish)) => drawn(alloc, wish, source, sink),
        Ok(None) => usage(sink),
        Err(_) => Ending::NoMemory,
    }
}

/// Writes the line `usage`, for words that are wrong or can't be had as text.
pub fn usage<K: Sink>(sink: &mut K) -> Ending
    ensures told { result ≢ Ending.WriteFault → (result ≡ Ending.Usage) × Took (K.taken sink.old) (K.taken sink.new) (codes "usage\n") }
    ensures failed { result ≡ Ending.WriteFault
        → Rose (K.faults sink.old) (K.faults sink.new) × TookFront (K.taken sink.old) (K.taken sink.new) (codes "usage\n") }
    ensures either { (result ≡ Ending.Usage) ⊎ (result ≡ Ending.WriteFault) }
{
    told(sink, "usage\n", Ending::Usage)
}

/// Reads the source and writes the answer to its bytes.
fn drawn<S: Source, K: Sink>(alloc: Global, wish: Wish, source: &mut S, sink: &mut K) -> Ending
    ensures drawn { result ≡ Ending.Drawn → IsDrained (S.left source.old) (S.left source.new)
        × IfSome (S.left source.old)
        (λ bytes. (text : List ℕ) × IsPicture bytes wish text × Took (K.taken sink.old) (K.taken sink.new) text) }
    ensures refused { result ≡ Ending.Refused
        → IfSome (S.left source.old)
        (λ bytes. (line : List ℕ) × IsRefusal bytes wish line × Took (K.taken sink.old) (K.taken sink.new) line) }
    ensures never_usage { result ≢ Ending.Usage }
    ensures read_fault { result ≡ Ending.ReadFault
        → Rose (S.faults source.old) (S.faults source.new) × (K.taken sink.new ≡ K.taken sink.old) }
    ensures write_fault { result ≡ Ending.WriteFault → Rose (K.faults sink.old) (K.faults sink.new) }
    ensures no_memory { result ≡ Ending.NoMemory → K.taken sink.new ≡ K.taken sink.old }
    ensures front { result ≡ Ending.WriteFault
        → IfSome (S.left source.old)
        (λ bytes. (text : List ℕ) × IsDrawingAnswer bytes wish text × TookFront (K.taken sink.old) (K.taken sink.new) text) }
{
    match answer_to(alloc, wish, source) {
        Ok(Answer::Picture(text)) => told(sink, text.as_str(), Ending::Drawn),
        Ok(Answer::Refusal(line)) => told(sink, line.as_str(), Ending::Refused),
        Err(Lack::Failed) => Ending::ReadFault,
        Err(Lack::NoMemory) => Ending::NoMemory,
    }
}

/// Writes a text and answers the ending, or that the sink failed.
fn told<K: Sink>(sink: &mut K, text: &str, ending: Ending) -> Ending
    ensures told { result ≢ Ending.WriteFault → (result ≡ ending) × Took (K.taken sink.old) (K.taken sink.new) text.now }
    ensures failed { ending ≢ Ending.WriteFault → result ≡ Ending.WriteFault → Rose (K.faults sink.old) (K.faults sink.new) }
    ensures front { ending ≢ Ending.WriteFault → result ≡ Ending.WriteFault → TookFront (K.taken sink.old) (K.taken sink.new) text.now }
    ensures either { (result ≡ ending) ⊎ (result ≡ Ending.WriteFault) }
{
    match write_all(sink, text.as_bytes()) {
        Ok(()) => ending,
        Err(_) => Ending::WriteFault,
    }
}
