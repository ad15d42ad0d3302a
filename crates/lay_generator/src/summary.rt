//! The summary of a generated run.

ghost use Rattle.std.specs.Prelude.{◌≡◌, ◌++◌, IfOk, OnOk, string_bytes};
ghost use Rattle.lay_frag.specs.Pieces.{IsContextInRange, IsTreeInRange, frags_of, page_pieces};
ghost use Rattle.lay_generator.specs.Summary.{mark_from, mark_with, piece_mark, residue, summary};
ghost use Rattle.lay_report.specs.Report.{numbered_line};

use lay_frag::{Frag, Placed, Tree};
use lay_report::push_number;
use lay_units::{NoMemory, Text, Unit};
use std::alloc::Global;

/// The four lines of a generated run whose last document has so many nodes, of whose edits so many were accepted, and
/// whose last tree this is.
pub fn run_summary(alloc: Global, nodes: u64, accepted: u64, tree: &Tree) -> Result<Text, NoMemory>
    ensures { IfOk result (λ t. t ≡ summary nodes accepted tree.now) }
{
    let mut text = String::new(alloc);
    push_line(&mut text, "nodes ", nodes)?;
    push_line(&mut text, "accepted ", accepted)?;
    push_line(&mut text, "pieces ", tree.len() as u64)?;
    push_line(&mut text, "mark ", u64::from(tree_mark(tree.contexts())))?;
    Ok(Text::new(text))
}

fn push_line(text: &mut String, word: &str, number: u64) -> Result<(), NoMemory>
    ensures { OnOk result (string_bytes text.new ≡ string_bytes text.old ++ numbered_line word.now number) }
{
    push_number(text, word, number)?;
    text.push_str("\n")?;
    Ok(())
}

/// The mark of the pieces of all contexts.
fn tree_mark(contexts: &[Placed]) -> u32
    requires { IsTreeInRange contexts.now }
    ensures { result ≡ mark_from 0 (frags_of contexts.now) }
{
    let mut mark = 0;
    for placed in contexts {
        mark = context_mark(mark, placed);
    }
    mark
}

/// The mark with the pieces of a context.
fn context_mark(before: u32, placed: &Placed) -> u32
    requires { IsContextInRange placed.now }
    ensures { result ≡ mark_from before (page_pieces placed.now) }
{
    let mut mark = before;
    for k in 0..placed.pieces().len() {
        mark = piece_mark(mark, &placed.page_piece(k));
    }
    mark
}

/// The mark with the place and the size of a piece.
fn piece_mark(mark: u32, frag: &Frag) -> u32
    ensures { result ≡ piece_mark mark frag.now }
{
    let rect = frag.rect;
    marked(marked(marked(marked(mark, rect.x), rect.y), rect.w), rect.h)
}

fn marked(mark: u32, length: Unit) -> u32
    ensures { result ≡ mark_with mark length.0 }
{
    ((31 * u64::from(mark) + u64::from(residue(length.0))) % 4294967296) as u32
}

/// A number modulo 2^32.
fn residue(number: i64) -> u32
    ensures { result ≡ residue number }
{
    let size = number.unsigned_abs();
    if number < 0 {
        return (4294967295 - (size - 1) % 4294967296) as u32;
    }
    (size % 4294967296) as u32
}
