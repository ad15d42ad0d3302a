//! Inline boxes are broken round in-flow blocks (CSS 2.2, 9.2.1.1).

ghost use Rattle.std.specs.Prelude.{◌≡◌, ◌++◌, ◌∷◌, [], false, filter, List, OnOk};
ghost use Rattle.std.specs.List.{list_any};
ghost use Rattle.lay_boxgen.specs.declared.facts.Facts.{Facts};
ghost use Rattle.lay_boxgen.specs.Boxes.{Tree};
ghost use Rattle.lay_boxgen.specs.BrokenInlines.{is_block_box, is_unseen, is_no_text_box, part_over, parts_from, broken};

use crate::facts::Facts;
use crate::forms::{is_blank, is_block, is_in_flow, is_inline, is_text};
use crate::subtree::{BoxRule, Subtree};
use lay_units::NoMemory;
use std::alloc::Global;

/// Whether it parts no blocks: it is out of flow, or white space that would be collapsed away.
pub fn is_unseen(facts: Facts) -> bool
    ensures { result ≡ is_unseen facts }
{
    !is_in_flow(facts.flow) || is_blank(facts.form)
}

/// Whether a block is among these boxes.
pub fn has_block(boxes: &[Subtree]) -> bool
    ensures { result ≡ list_any is_block_box boxes.now }
{
    boxes.iter().any(|child| is_block(child.facts()))
}

/// Puts the boxes that are no texts at the end of `out`.
pub fn put_but_texts(boxes: Vec<Subtree>, out: &mut Vec<Subtree>) -> Result<(), NoMemory>
    ensures { OnOk result (out.new.items ≡ out.old.items ++ filter is_no_text_box boxes.items) }
{
    for child in boxes {
        if !is_text(child.facts().form) {
            out.push(child)?;
        }
    }
    Ok(())
}

/// The latest children of an inline box, and whether they follow a block and are unseen.
#[derive(Drop)]
struct OpenPart {
    after_block: bool,
    held: Vec<Subtree>,
}

impl OpenPart {
    /// Puts what stands for the children at the end of `out`.
    fn end(
        &mut self,
        alloc: Global,
        facts: Facts,
        after_block: bool,
        out: &mut Vec<Subtree>,
    ) -> Result<(), NoMemory>
        ensures out { OnOk result (out.new.items ≡ out.old.items ++ part_over facts after_block self.old.held.items) }
        ensures held { OnOk result (self.new.held.items ≡ []) }
    {
        let held = std::mem::replace(&mut self.held, Vec::new(alloc));
        if after_block {
            put_but_texts(held, out)
        } else {
            out.push(Subtree::new(facts, held))?;
            Ok(())
        }
    }

    /// Takes the next child of the inline box.
    fn take(
        &mut self,
        alloc: Global,
        facts: Facts,
        child: Subtree,
        out: &mut Vec<Subtree>,
    ) -> Result<(), NoMemory>
        ensures { OnOk result ((rest : List Tree) →
            out.new.items ++ parts_from facts self.new.after_block self.new.held.items rest
            ≡ out.old.items ++ parts_from facts self.old.after_block self.old.held.items (child ∷ rest)) }
    {
        if is_block(child.facts()) {
            let after_block = self.after_block;
            self.end(alloc, facts, after_block, out)?;
            self.after_block = true;
            out.push(child)?;
        } else {
            self.after_block = self.after_block && is_unseen(child.facts());
            self.held.push(child)?;
        }
        Ok(())
    }
}

/// Puts the parts of an inline box, and the blocks between them, at the end of `out`.
fn put_parts(
    alloc: Global,
    facts: Facts,
    children: Vec<Subtree>,
    out: &mut Vec<Subtree>,
) -> Result<(), NoMemory>
    ensures { OnOk result (out.new.items ≡ out.old.items ++ parts_from facts false [] children.items) }
{
    let mut part = OpenPart {
        after_block: false,
        held: Vec::new(alloc),
    };
    for child in children {
        part.take(alloc, facts, child, out)?;
    }
    part.end(alloc, facts, false, out)
}

/// Breaks inline boxes.
pub struct BreakInlines;

impl BoxRule for BreakInlines {
    ghost made = { broken };

    fn keeps(facts: Facts, children: &[Subtree]) -> bool {
        !(is_inline(facts.form) && has_block(children))
    }

    fn make(
        alloc: Global,
        facts: Facts,
        children: Vec<Subtree>,
        out: &mut Vec<Subtree>,
    ) -> Result<(), NoMemory> {
        if is_inline(facts.form) && has_block(children.as_slice()) {
            put_parts(alloc, facts, children, out)
        } else {
            out.push(Subtree::new(facts, children))?;
            Ok(())
        }
    }
}
