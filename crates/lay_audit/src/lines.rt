//! Lines that may stand next.

ghost use Rattle.std.specs.Prelude.{◌≡◌, ◌++◌, IfOk, IfSome, None, codes, string_bytes};
ghost use Rattle.std.specs.Fmt.{decimal};
ghost use Rattle.lay_audit.specs.NextLines.{BeginsWith, command_front, command_word, edit_count, reply_end};

use lay_history::edits::{Cmd, Reply};
use lay_report::{answer_text, push_number};
use lay_units::NoMemory;
use std::alloc::Global;

/// What stands behind these bytes, where a text begins with them.
pub(crate) fn behind<'a>(text: &'a [u8], front: &[u8]) -> Option<&'a [u8]>
    ensures some { IfSome result (λ rest. text.now ≡ front.now ++ rest.now) }
    ensures none { result ≡ None → BeginsWith text.now front.now → ⊥ }
{
    text.strip_prefix(front)
}

/// How the line of a command begins, before the reply.
pub(crate) fn command_front(
    alloc: Global,
    editor: u64,
    index: u64,
    command: &Cmd,
) -> Result<String, NoMemory>
    ensures { IfOk result (λ t. string_bytes t ≡ command_front editor index command.now) }
{
    let mut text = String::new(alloc);
    push_number(&mut text, command_word(command), editor)?;
    push_number(&mut text, " ", index)?;
    text.push_str(" ")?;
    Ok(text)
}

fn command_word(command: &Cmd) -> &'static str
    ensures { result.now ≡ command_word command.now }
{
    match command {
        Cmd::Edits(_) => "edit ",
        Cmd::Latest => "latest ",
        Cmd::Sync => "sync ",
    }
}

/// How it ends.
pub(crate) fn reply_end(alloc: Global, command: &Cmd, reply: Reply) -> Result<String, NoMemory>
    ensures { IfOk result (λ t. string_bytes t ≡ reply_end (edit_count command.now) reply) }
{
    answer_text(alloc, edit_count(command), reply)
}

/// How many edits a command has.
fn edit_count(command: &Cmd) -> usize
    ensures { result ≡ edit_count command.now }
{
    match command {
        Cmd::Edits(edits) => edits.len(),
        _ => 0,
    }
}

/// A line of a word and a number.
pub(crate) fn number_line(alloc: Global, word: &str, number: u64) -> Result<String, NoMemory>
    ensures { IfOk result (λ t. string_bytes t ≡ word.now ++ decimal number ++ codes "\n") }
{
    let mut text = String::new(alloc);
    push_number(&mut text, word, number)?;
    text.push_str("\n")?;
    Ok(text)
}
