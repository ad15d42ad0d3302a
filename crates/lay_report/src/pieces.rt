//! The lines of a tree.

ghost use Rattle.lay_frag.specs.Lines.{context_text, frag_line, tree_text};
ghost use Rattle.lay_frag.specs.Pieces.{IsContextInRange, IsTreeInRange};
ghost use Rattle.lay_report.specs.Writing.{Pushes};

use crate::buffer::{hand_on_much, push_bytes};
use crate::fault::ReportFault;
use crate::tree_text::TreeText;
use lay_frag::{Frag, Placed, Tree, push_frag};
use lay_outside::Sink;
use std::alloc::Global;

/// Writes the lines of a tree: one for each piece, in the tree's order.
pub(crate) fn push_tree<K: Sink>(
    tree: &Tree,
    buffer: &mut Vec<u8>,
    sink: &mut K,
) -> Result<(), ReportFault>
    ensures { Pushes (record { taken = K.taken sink.old; faults = K.faults sink.old; held = buffer.old.items })
        (record { taken = K.taken sink.new; faults = K.faults sink.new; held = buffer.new.items }) (tree_text tree.now) result }
{
    push_contexts(tree.contexts(), buffer, sink)
}

/// Writes the lines of a tree, which is then the last one. Those of contexts that are the same in the last tree, at the same place,
/// are copied from its text.
pub(crate) fn push_tree_after<'a, K: Sink>(
    alloc: Global,
    tree: &'a Tree,
    last: &mut Option<TreeText<'a>>,
    buffer: &mut Vec<u8>,
    sink: &mut K,
) -> Result<(), ReportFault>
    ensures { Pushes (record { taken = K.taken sink.old; faults = K.faults sink.old; held = buffer.old.items })
        (record { taken = K.taken sink.new; faults = K.faults sink.new; held = buffer.new.items }) (tree_text tree.now) result }
{
    let text = TreeText::after(alloc, tree, last.as_ref())?;
    let pushed = push_bytes(text.bytes(), buffer, sink);
    *last = Some(text);
    pushed
}

fn push_contexts<K: Sink>(
    contexts: &[Placed],
    buffer: &mut Vec<u8>,
    sink: &mut K,
) -> Result<(), ReportFault>
    requires { IsTreeInRange contexts.now }
    ensures { Pushes (record { taken = K.taken sink.old; faults = K.faults sink.old; held = buffer.old.items })
        (record { taken = K.taken sink.new; faults = K.faults sink.new; held = buffer.new.items }) (tree_text contexts.now) result }
{
    for placed in contexts {
        push_context(placed, buffer, sink)?;
    }
    Ok(())
}

fn push_context<K: Sink>(
    placed: &Placed,
    buffer: &mut Vec<u8>,
    sink: &mut K,
) -> Result<(), ReportFault>
    requires { IsContextInRange placed.now }
    ensures { Pushes (record { taken = K.taken sink.old; faults = K.faults sink.old; held = buffer.old.items })
        (record { taken = K.taken sink.new; faults = K.faults sink.new; held = buffer.new.items }) (context_text placed.now) result }
{
    for k in 0..placed.pieces().len() {
        push_piece(&placed.page_piece(k), buffer, sink)?;
    }
    Ok(())
}

/// Writes the line of a piece in page coordinates.
fn push_piece<K: Sink>(frag: &Frag, buffer: &mut Vec<u8>, sink: &mut K) -> Result<(), ReportFault>
    ensures { Pushes (record { taken = K.taken sink.old; faults = K.faults sink.old; held = buffer.old.items })
        (record { taken = K.taken sink.new; faults = K.faults sink.new; held = buffer.new.items }) (frag_line frag.now) result }
{
    push_frag(buffer, frag)?;
    hand_on_much(buffer, sink)
}
