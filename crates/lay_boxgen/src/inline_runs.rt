//! Inline runs beside blocks are wrapped (CSS 2.2, 9.2.1.1).

ghost use Rattle.std.specs.Prelude.{◌≡◌, IfOk};
ghost use Rattle.std.specs.List.{list_any};
ghost use Rattle.lay_boxgen.specs.declared.facts.Facts.{Facts};
ghost use Rattle.lay_boxgen.specs.Boxes.{in_box};
ghost use Rattle.lay_boxgen.specs.InlineRuns.{is_no_block, is_seen_box, is_loose, is_loose_box, block_round, run_wrapped};

use crate::broken_inlines::{has_block, is_unseen, put_but_texts};
use crate::facts::{Facts, Form};
use crate::forms::{is_block, is_block_container, is_text};
use crate::runs::{RunRule, anonymous_box, gather};
use crate::subtree::{BoxRule, Subtree};
use lay_units::NoMemory;
use std::alloc::Global;

/// Whether an inline-level box in flow is seen among these boxes.
fn has_seen(boxes: &[Subtree]) -> bool
    ensures { result ≡ list_any is_seen_box boxes.now }
{
    boxes.iter().any(|child| !is_unseen(child.facts()))
}

/// Whether a box among blocks is not left as it is: an inline-level box in flow, or a text.
fn is_loose(facts: Facts) -> bool
    ensures { result ≡ is_loose facts }
{
    !is_block(facts) && (!is_unseen(facts) || is_text(facts.form))
}

/// Whether such a box is among these.
fn has_loose(boxes: &[Subtree]) -> bool
    ensures { result ≡ list_any is_loose_box boxes.now }
{
    boxes.iter().any(|child| is_loose(child.facts()))
}

/// Anonymous blocks go round what is no block.
#[derive(Clone, Copy)]
struct BlockRound {
    parent: Facts,
}

impl RunRule for BlockRound {
    ghost faulty = { λ rule. is_no_block };

    ghost closed = { λ rule. block_round rule.parent };

    fn is_faulty(&self, child: Facts) -> bool {
        !is_block(child)
    }

    fn close(
        &self,
        _alloc: Global,
        run: Vec<Subtree>,
        out: &mut Vec<Subtree>,
    ) -> Result<(), NoMemory> {
        if has_seen(run.as_slice()) {
            out.push(anonymous_box(self.parent, Form::Block, run))?;
            Ok(())
        } else {
            put_but_texts(run, out)
        }
    }
}

/// The children of a box, with inline runs wrapped where blocks stand beside them.
fn run_wrapped(
    alloc: Global,
    facts: Facts,
    children: Vec<Subtree>,
) -> Result<Vec<Subtree>, NoMemory>
    ensures { IfOk result (λ v. v.items ≡ run_wrapped facts children.items) }
{
    if is_block_container(facts.form) && has_block(children.as_slice()) {
        gather(alloc, &BlockRound { parent: facts }, children)
    } else {
        Ok(children)
    }
}

/// Wraps inline runs.
pub struct WrapRuns;

impl BoxRule for WrapRuns {
    ghost made = { in_box run_wrapped };

    fn keeps(facts: Facts, children: &[Subtree]) -> bool {
        !is_block_container(facts.form) || !has_block(children) || !has_loose(children)
    }

    fn make(
        alloc: Global,
        facts: Facts,
        children: Vec<Subtree>,
        out: &mut Vec<Subtree>,
    ) -> Result<(), NoMemory> {
        let children = run_wrapped(alloc, facts, children)?;
        out.push(Subtree::new(facts, children))?;
        Ok(())
    }
}
