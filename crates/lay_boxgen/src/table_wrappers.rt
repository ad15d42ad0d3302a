//! Wrappers of tables get their table boxes (CSS 2.2, 17.4).

ghost use Rattle.std.specs.Prelude.{◌≡◌, IfOk};
ghost use Rattle.lay_boxgen.specs.declared.facts.Facts.{Facts};
ghost use Rattle.lay_boxgen.specs.Boxes.{in_box};
ghost use Rattle.lay_boxgen.specs.TableWrappers.{table_facts, captions_and_table, in_wrapper};

use crate::facts::{Facts, Form};
use crate::forms::{is_caption, is_table};
use crate::subtree::{BoxRule, Subtree};
use lay_box_tree::Flow;
use lay_units::NoMemory;
use std::alloc::Global;

/// The facts of the table box in a wrapper.
fn table_facts(facts: Facts) -> Facts
    ensures { result ≡ table_facts facts }
{
    Facts {
        form: Form::Table,
        flow: Flow::InFlow,
        inner: false,
        ..facts
    }
}

/// The captions among the children of a wrapper, and the table box with the others.
fn captions_and_table(
    alloc: Global,
    facts: Facts,
    children: Vec<Subtree>,
) -> Result<Vec<Subtree>, NoMemory>
    ensures { IfOk result (λ v. v.items ≡ captions_and_table facts children.items) }
{
    let mut captions = Vec::new(alloc);
    let mut parts = Vec::new(alloc);
    for child in children {
        if is_caption(child.facts().form) {
            captions.push(child)?;
        } else {
            parts.push(child)?;
        }
    }
    captions.push(Subtree::new(table_facts(facts), parts))?;
    Ok(captions)
}

/// The children of a box, with a table box where it is a wrapper.
fn in_wrapper(alloc: Global, facts: Facts, children: Vec<Subtree>) -> Result<Vec<Subtree>, NoMemory>
    ensures { IfOk result (λ v. v.items ≡ in_wrapper facts children.items) }
{
    if is_table(facts.form) {
        captions_and_table(alloc, facts, children)
    } else {
        Ok(children)
    }
}

/// Makes the table boxes of wrappers.
pub struct FillWrappers;

impl BoxRule for FillWrappers {
    ghost made = { in_box in_wrapper };

    fn keeps(facts: Facts, _children: &[Subtree]) -> bool {
        !is_table(facts.form)
    }

    fn make(
        alloc: Global,
        facts: Facts,
        children: Vec<Subtree>,
        out: &mut Vec<Subtree>,
    ) -> Result<(), NoMemory> {
        let children = in_wrapper(alloc, facts, children)?;
        out.push(Subtree::new(facts, children))?;
        Ok(())
    }
}
