//! The lines of a tree in a report.

ghost use Rattle.std.specs.Prelude.{◌≡◌, ◌++◌, IfOk, IsAscii, OnOk, string_bytes};
ghost use Rattle.lay_frag.specs.Lines.{context_text, tree_text};
ghost use Rattle.lay_frag.specs.Pieces.{IsContextInRange, IsTreeInRange};

use crate::piece_line::push_frag;
use crate::{Placed, Tree};
use lay_units::{NoMemory, Text};
use std::alloc::Global;

/// The lines of a tree: one for each piece, in the tree's order.
pub fn text_of(alloc: Global, tree: &Tree) -> Result<Text, NoMemory>
    ensures { IfOk result (λ t. t ≡ tree_text tree.now) }
{
    let mut bytes = Vec::new(alloc);
    push_contexts(&mut bytes, tree.contexts())?;
    Ok(Text::new(as_string(bytes)))
}

/// These bytes as a text.
fn as_string(bytes: Vec<u8>) -> String
    requires { IsAscii bytes.items }
    ensures { string_bytes result ≡ bytes.items }
{
    let Ok(text) = String::from_utf8(bytes) else {
        unreachable!();
    };
    text
}

fn push_contexts(bytes: &mut Vec<u8>, contexts: &[Placed]) -> Result<(), NoMemory>
    requires { IsTreeInRange contexts.now }
    ensures added { OnOk result (bytes.new.items ≡ bytes.old.items ++ tree_text contexts.now) }
    ensures ascii { OnOk result (IsAscii (tree_text contexts.now)) }
{
    for placed in contexts {
        push_context(bytes, placed)?;
    }
    Ok(())
}

/// Adds the lines of a context: one for each piece, in page coordinates.
pub fn push_context(bytes: &mut Vec<u8>, placed: &Placed) -> Result<(), NoMemory>
    requires { IsContextInRange placed.now }
    ensures added { OnOk result (bytes.new.items ≡ bytes.old.items ++ context_text placed.now) }
    ensures ascii { OnOk result (IsAscii (context_text placed.now)) }
{
    for k in 0..placed.pieces().len() {
        push_frag(bytes, &placed.page_piece(k))?;
    }
    Ok(())
}
