//! The answer to the bytes of a report.

ghost use Rattle.std.specs.Prelude.{◌≡◌, IfOk, IfErr, IfSome};
ghost use Rattle.std.specs.List.{All};
ghost use Rattle.std.specs.Option.{IsSome};
ghost use Rattle.lay_drawing.specs.Lines.{IsPiece};
ghost use Rattle.lay_drawing.specs.Marks.{IsMarked, plain_pieces};
ghost use Rattle.lay_drawing.specs.Changes.{differences};
ghost use Rattle.lay_drawing.specs.Hits.{hit_pieces};
ghost use Rattle.lay_drawing.specs.Picture.{picture};
ghost use Rattle.lay_drawing.specs.Answers.{AnswersBytes, AnswersReading, AnswersHit, AnswersBoth, IsLack, DrainsFor};
ghost use Rattle.lay_report.specs.Report.{numbered_line};

use crate::changes::differences;
use crate::hit::{PieceName, hit_pieces};
use crate::input::{Both, InputFault, read_both, read_report};
use crate::mark::{Marked, plain_pieces};
use crate::picture::picture;
use crate::state::Reading;
use crate::words::Wish;
use lay_frag::Frag;
use lay_outside::Source;
use lay_units::{NoMemory, Text};
use std::alloc::Global;
use std::fmt::Write;

/// A text that answers a report.
#[derive(Drop)]
pub enum Answer {
    /// The picture of the tree that is asked for.
    Picture(Text),
    /// The line that says why the report is refused.
    Refusal(Text),
}

/// Why there is no answer.
#[derive(Clone, Copy)]
pub enum Lack {
    /// A read failed.
    Failed,
    /// Memory ran out.
    NoMemory,
}

/// The answer to the report that the source has left.
pub(crate) fn answer_to<S: Source>(
    alloc: Global,
    wish: Wish,
    source: &mut S,
) -> Result<Answer, Lack>
    ensures answers { IfOk result (λ a. IfSome (S.left source.old) (λ bytes. AnswersBytes bytes wish a)) }
    ensures drained { IfOk result (DrainsFor (S.left source.old) (S.left source.new)) }
    ensures lacks { IfErr result (IsLack (S.faults source.old) (S.faults source.new)) }
{
    match wish {
        Wish::Tree(wanted) => tree_answer(alloc, wanted, source),
        Wish::Between(before, after) => between_answer(alloc, (before, after), source),
        Wish::Hit(name) => hit_answer(alloc, name, source),
    }
}

/// The answer where one tree is asked for.
fn tree_answer<S: Source>(
    alloc: Global,
    wanted: Option<u64>,
    source: &mut S,
) -> Result<Answer, Lack>
    ensures answers { IfOk result (λ a. IfSome (S.left source.old) (λ bytes. AnswersBytes bytes (Wish.Tree wanted) a)) }
    ensures drained { IfOk result (DrainsFor (S.left source.old) (S.left source.new)) }
    ensures lacks { IfErr result (IsLack (S.faults source.old) (S.faults source.new)) }
{
    match read_report(alloc, wanted, source) {
        Ok(reading) => shown(alloc, &reading),
        Err(InputFault::BadLine(number)) => refused(alloc, "refused line ", number),
        Err(InputFault::Failed) => Err(Lack::Failed),
        Err(InputFault::NoMemory) => Err(Lack::NoMemory),
    }
}

/// The answer where the differences of two trees are asked for.
fn between_answer<S: Source>(
    alloc: Global,
    versions: (u64, u64),
    source: &mut S,
) -> Result<Answer, Lack>
    ensures answers { IfOk result (λ a. IfSome (S.left source.old) (λ bytes. AnswersBytes bytes (Wish.Between versions.0 versions.1) a)) }
    ensures drained { IfOk result (DrainsFor (S.left source.old) (S.left source.new)) }
    ensures lacks { IfErr result (IsLack (S.faults source.old) (S.faults source.new)) }
{
    match read_both(alloc, versions, source) {
        Ok(both) => both_shown(alloc, &both),
        Err(InputFault::BadLine(number)) => refused(alloc, "refused line ", number),
        Err(InputFault::Failed) => Err(Lack::Failed),
        Err(InputFault::NoMemory) => Err(Lack::NoMemory),
    }
}

/// The answer where a piece of the last tree is asked for.
fn hit_answer<S: Source>(alloc: Global, name: PieceName, source: &mut S) -> Result<Answer, Lack>
    ensures answers { IfOk result (λ a. IfSome (S.left source.old) (λ bytes. AnswersBytes bytes (Wish.Hit name) a)) }
    ensures drained { IfOk result (DrainsFor (S.left source.old) (S.left source.new)) }
    ensures lacks { IfErr result (IsLack (S.faults source.old) (S.faults source.new)) }
{
    match read_report(alloc, None, source) {
        Ok(reading) => hit_shown(alloc, name, &reading),
        Err(InputFault::BadLine(number)) => refused(alloc, "refused line ", number),
        Err(InputFault::Failed) => Err(Lack::Failed),
        Err(InputFault::NoMemory) => Err(Lack::NoMemory),
    }
}

/// The picture of the tree that is asked for, or the line that says that it isn't shown.
fn shown(alloc: Global, reading: &Reading) -> Result<Answer, Lack>
    ensures ok { IfOk result (AnswersReading reading.now) }
    ensures err { IfErr result (λ l. l ≡ Lack.NoMemory) }
{
    match reading.wanted {
        None => tree_drawn(alloc, &reading.pieces),
        Some(version) => {
            if reading.is_shown {
                tree_drawn(alloc, &reading.pieces)
            } else {
                refused(alloc, "refused version ", version)
            }
        }
    }
}

/// The picture of the tree with the piece that is asked for.
fn hit_shown(alloc: Global, name: PieceName, reading: &Reading) -> Result<Answer, Lack>
    ensures ok { IfOk result (AnswersHit name reading.now) }
    ensures err { IfErr result (λ l. l ≡ Lack.NoMemory) }
{
    hit_drawn(alloc, name, &reading.pieces)
}

/// The picture of what two trees differ in, or the line that says which isn't shown.
fn both_shown(alloc: Global, both: &Both) -> Result<Answer, Lack>
    requires before { IsSome both.now.before.wanted }
    requires after { IsSome both.now.after.wanted }
    ensures ok { IfOk result (AnswersBoth both.now.before both.now.after) }
    ensures err { IfErr result (λ l. l ≡ Lack.NoMemory) }
{
    let before = both.before.wanted.unwrap_or(0);
    let after = both.after.wanted.unwrap_or(0);
    if !both.before.is_shown {
        return refused(alloc, "refused version ", before);
    }
    if !both.after.is_shown {
        return refused(alloc, "refused version ", after);
    }
    differences_drawn(alloc, &both.before.pieces, &both.after.pieces)
}

fn tree_drawn(alloc: Global, pieces: &[Frag]) -> Result<Answer, Lack>
    requires { All IsPiece pieces.now }
    ensures ok { IfOk result (λ a. a ≡ Answer.Picture (picture (plain_pieces pieces.now))) }
    ensures err { IfErr result (λ l. l ≡ Lack.NoMemory) }
{
    match plain_pieces(alloc, pieces) {
        Ok(marked) => drawn(alloc, &marked),
        Err(_) => Err(Lack::NoMemory),
    }
}

fn hit_drawn(alloc: Global, name: PieceName, pieces: &[Frag]) -> Result<Answer, Lack>
    requires { All IsPiece pieces.now }
    ensures ok { IfOk result (λ a. a ≡ Answer.Picture (picture (hit_pieces name pieces.now))) }
    ensures err { IfErr result (λ l. l ≡ Lack.NoMemory) }
{
    match hit_pieces(alloc, name, pieces) {
        Ok(marked) => drawn(alloc, &marked),
        Err(_) => Err(Lack::NoMemory),
    }
}

fn differences_drawn(alloc: Global, before: &[Frag], after: &[Frag]) -> Result<Answer, Lack>
    requires before { All IsPiece before.now }
    requires after { All IsPiece after.now }
    ensures ok { IfOk result (λ a. a ≡ Answer.Picture (picture (differences before.now after.now))) }
    ensures err { IfErr result (λ l. l ≡ Lack.NoMemory) }
{
    match differences(alloc, before, after) {
        Ok(marked) => drawn(alloc, &marked),
        Err(_) => Err(Lack::NoMemory),
    }
}

fn drawn(alloc: Global, pieces: &[Marked]) -> Result<Answer, Lack>
    requires { All IsMarked pieces.now }
    ensures ok { IfOk result (λ a. a ≡ Answer.Picture (picture pieces.now)) }
    ensures err { IfErr result (λ l. l ≡ Lack.NoMemory) }
{
    match picture(alloc, pieces) {
        Ok(text) => Ok(Answer::Picture(text)),
        Err(_) => Err(Lack::NoMemory),
    }
}

fn refused(alloc: Global, word: &str, number: u64) -> Result<Answer, Lack>
    ensures ok { IfOk result (λ a. a ≡ Answer.Refusal (numbered_line word.now number)) }
    ensures err { IfErr result (λ l. l ≡ Lack.NoMemory) }
{
    match refusal(alloc, word, number) {
        Ok(line) => Ok(Answer::Refusal(line)),
        Err(_) => Err(Lack::NoMemory),
    }
}

fn refusal(alloc: Global, word: &str, number: u64) -> Result<Text, NoMemory>
    ensures { IfOk result (λ t. t ≡ numbered_line word.now number) }
{
    let mut text = String::from_str(alloc, word)?;
    write!(text, "{number}")?;
    text.push_str("\n")?;
    Ok(Text::new(text))
}
