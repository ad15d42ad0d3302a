//! The text of a tree, kept for the tree that is written next.

ghost use Rattle.std.specs.Prelude.{◌≡◌, ◌≤◌, ◌<◌, ◌-◌, ◌++◌, IfOk, IfSome, OnOk, Some, drop, length, slice_get, take};
ghost use Rattle.lay_frag.specs.Lines.{context_text, tree_text};
ghost use Rattle.lay_frag.specs.Pieces.{IsContextInRange};

use lay_frag::{Placed, Tree, push_context, same_context};
use lay_units::NoMemory;
use std::alloc::Global;
use std::marker::Model;

/// A tree with its text, and the places where the lines of its contexts begin.
#[derive(Drop)]
pub(crate) struct TreeText<'a> {
    tree: &'a Tree,
    bytes: Vec<u8>,
    marks: Vec<usize>,
}

impl<'a> Model for TreeText<'a> {
    ghost use Rattle.std.specs.Prelude.{List};
    ghost use Rattle.lay_frag.specs.Pieces.{Context};
    ghost use Rattle.lay_report.specs.KeptText.{HasLines};

    ghost Value = { List Context };

    ghost view = { λ t. t.tree.now };

    ghost invariant = { λ t. HasLines t.tree.now t.bytes.items t.marks.items };
}

impl<'a> TreeText<'a> {
    /// The text of a tree. The lines of contexts that are the same in the last tree, at the same place, are copied from its text.
    pub(crate) fn after(
        alloc: Global,
        tree: &'a Tree,
        last: Option<&TreeText<'_>>,
    ) -> Result<TreeText<'a>, NoMemory>
        ensures { IfOk result (λ t. t ≡ tree.now) }
    {
        let mut bytes = Vec::new(alloc);
        let mut marks = Vec::new(alloc);
        marks.push(0)?;
        for i in 0..tree.contexts().len() {
            push_lines(&mut bytes, context_at(tree, i), i, last)?;
            marks.push(bytes.len())?;
        }
        Ok(TreeText { tree, bytes, marks })
    }

    /// The text.
    pub(crate) fn bytes(&self) -> &[u8]
        ensures { result.now ≡ tree_text self.now }
    {
        self.bytes.as_slice()
    }

    /// The lines of the context with this number; None where it isn't the same as this one.
    fn lines_of(&self, i: usize, placed: &Placed) -> Option<&[u8]>
        ensures { IfSome result (λ lines. lines.now ≡ context_text placed.now) }
    {
        if i >= self.tree.contexts().len() {
            return None;
        }
        if !same_context(context_at(self.tree, i), placed) {
            return None;
        }
        let from = self.marks[i];
        let until = self.marks[i + 1];
        Some(part(&self.bytes, from, until))
    }
}

fn context_at(tree: &Tree, i: usize) -> &Placed
    requires { i < length tree.now }
    ensures at { slice_get tree.now i ≡ Some result.now }
    ensures in_range { IsContextInRange result.now }
{
    &tree.contexts()[i]
}

fn part(bytes: &[u8], from: usize, until: usize) -> &[u8]
    requires { (from ≤ until) × (until ≤ length bytes.now) }
    ensures { result.now ≡ take (until - from) (drop from bytes.now) }
{
    &bytes[from..until]
}

/// Adds the lines of the context with this number, from the text of the last tree where it is the same one there.
fn push_lines(
    bytes: &mut Vec<u8>,
    placed: &Placed,
    i: usize,
    last: Option<&TreeText<'_>>,
) -> Result<(), NoMemory>
    requires { IsContextInRange placed.now }
    ensures { OnOk result (bytes.new.items ≡ bytes.old.items ++ context_text placed.now) }
{
    if let Some(text) = last {
        if let Some(lines) = text.lines_of(i, placed) {
            bytes.extend_from_slice(lines)?;
            return Ok(());
        }
    }
    push_context(bytes, placed)
}
